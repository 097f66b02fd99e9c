// Buffers that are one byte too short, just long enough, and too long.
use crate::sample::{BOTH, SOUND};
use crate::shown::{Reader, write_sheet};
use lines::Sheet;
use sheets::WriteRefusal;
use std::io;

// Has no byte been written over the bytes 7 of a fresh buffer?
fn is_untouched(bytes: &[u8]) -> bool {
    bytes.iter().all(|b| *b == 7)
}

// Tells what came of writing the sheet into a fresh buffer.
fn show_answer(
    rt: &HostRuntime,
    sheet: &[u8],
    buf: &[u8],
    answer: Result<usize, WriteRefusal>,
) -> io::Result<()> {
    let size = buf.len();
    match answer {
        Ok(n) => {
            let whole = buf.get(..n) == Some(sheet);
            let rest = buf.get(n..).is_some_and(is_untouched);
            println!(rt; "{n} bytes into {size}: the sheet {whole}, bytes behind untouched {rest}")
        }
        Err(refusal) => {
            let number = refusal.number();
            let same = is_untouched(buf);
            println!(rt; "refused {number} at {size}: untouched {same}")
        }
    }
}

// Writes the sheet into buffers of these sizes; the bytes are what it should be.
fn show_writes(reader: &Reader, sheet: Sheet, sizes: &[usize], bytes: &[u8]) -> io::Result<()> {
    let rt = reader.rt;
    for size in sizes {
        let mut buf = vec![in rt.alloc(); 7u8; *size]?;
        let answer = write_sheet(&reader.sheets, sheet, &mut buf);
        print!(rt; "{sheet}, ")?;
        show_answer(rt, bytes, &buf, answer)?;
    }
    Ok(())
}

// No buffer at all, one byte too short, just long enough, and three bytes too long.
fn show_sizes(reader: &Reader, sheet: Sheet) -> io::Result<()> {
    let bytes = SOUND.sheet(sheet);
    let n = bytes.len();
    let sizes = [0, n.saturating_sub(1), n, n.saturating_add(3)];
    show_writes(reader, sheet, &sizes, bytes)
}

// Of nothing the sheets are empty, which fits any buffer.
pub(crate) fn show_blank(reader: &Reader) -> io::Result<()> {
    for sheet in BOTH {
        show_writes(reader, sheet, &[0, 3], b"")?;
    }
    Ok(())
}

pub(crate) fn show_buffers(reader: &mut Reader) -> io::Result<()> {
    let rt = reader.rt;
    let is_read = reader.read(SOUND).is_ok();
    println!(rt; "the sound pair is read: {is_read}")?;
    for sheet in BOTH {
        show_sizes(reader, sheet)?;
    }
    let is_read = reader.read(SOUND.with(Sheet::Staff, b"")).is_ok();
    println!(rt; "the same with an empty staff sheet is read: {is_read}")?;
    show_blank(reader)
}
