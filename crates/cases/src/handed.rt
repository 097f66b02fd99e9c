// The line at a place of a sheet.
use sheets::line_text;
use std::io;
use std::io::Write;

// The numbers of sheets, with 0 and 255 that no sheet has, and places.
static ASKED: [(u8, usize); 13] = [
    (1, 0),
    (1, 2),
    (1, 3),
    (1, 4),
    (1, 5),
    (1, 7),
    (1, 8),
    (1, 99),
    (2, 0),
    (2, 3),
    (2, 4),
    (0, 0),
    (255, 5),
];

pub(crate) fn show_handed(rt: &HostRuntime) -> io::Result<()> {
    let mut out = rt.stdout();
    for (sheet, place) in ASKED {
        print!(rt; "of [one..two] and [3..4], sheet {sheet}, place {place}: [")?;
        out.write_all(line_text(b"one\n\ntwo", b"3\n4\n", sheet, place))?;
        println!(rt; "]")?;
    }
    Ok(())
}
