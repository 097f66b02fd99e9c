// Sheets that a place writes, and opens again.
use crate::stop::{Result, Stop};
use round::Place;
use rules::{Points, Seats};
use sheets::{Sheets, WriteRefusal};
use std::io::Write;

// The sheets that a place writes, with the numbers under which they are shown.
#[derive(Clone, Copy)]
enum Written {
    Posts = 1,
    Staff = 2,
    Result = 3,
}

const ALL: [Written; 3] = [Written::Posts, Written::Staff, Written::Result];

impl Written {
    // Writes the sheet into the buffer.
    fn write(self, place: &Place<Points, Seats>, room: &mut [u8]) -> Result<usize, WriteRefusal> {
        match self {
            Written::Posts => place.write_posts(room),
            Written::Staff => place.write_staff(room),
            Written::Result => place.write_result(room),
        }
    }
}

// The sheet in a buffer of so many bytes that were dots: the answer, and the buffer then.
fn show_sheet(
    rt: &HostRuntime,
    place: &Place<Points, Seats>,
    sheet: Written,
    size: usize,
) -> Result<()> {
    let mut room = vec![in rt.alloc(); 46u8; size]?;
    let answer = sheet.write(place, &mut room);
    // A line has one column for both: the length, or the number of the refusal above 10,000.
    let shown = answer.unwrap_or_else(|refusal| 10000 + usize::from(refusal.number()));
    let number = sheet as u8;
    println!(rt; "sheet {number} in {size} bytes: {shown}")?;
    let mut out = rt.stdout();
    out.write_all(&room)?;
    println!(rt; "")?;
    Ok(())
}

// The sheet in a buffer that is one byte too short, exact, and two bytes too long.
fn show_sizes(rt: &HostRuntime, place: &Place<Points, Seats>, sheet: Written) -> Result<()> {
    let mut room = vec![in rt.alloc(); 0u8; 1000]?;
    let n = sheet.write(place, &mut room)?;
    if n > 0 {
        show_sheet(rt, place, sheet, n - 1)?;
    }
    show_sheet(rt, place, sheet, n)?;
    show_sheet(rt, place, sheet, n.saturating_add(2))
}

// Opens the place with the two sheets that it writes.
fn reopen(rt: &HostRuntime, place: &mut Place<Points, Seats>, desk: &mut Sheets) -> Result<()> {
    let mut posts = vec![in rt.alloc(); 0u8; 1000]?;
    let mut staff = vec![in rt.alloc(); 0u8; 1000]?;
    let m = Written::Posts.write(place, &mut posts)?;
    let n = Written::Staff.write(place, &mut staff)?;
    let (Some(posts), Some(staff)) = (posts.get(..m), staff.get(..n)) else {
        return Err(Stop::BadSheet);
    };
    match place.open(desk, posts, staff) {
        Ok(()) => println!(rt; "opened with its own sheets")?,
        Err(fault) => {
            let number = fault.kind.number();
            println!(rt; "its own sheets are refused: {number}")?
        }
    }
    Ok(())
}

// The three sheets in three buffers each; then the place is opened with its own two, and what it writes is shown again.
pub fn show_sheets(
    rt: &HostRuntime,
    when: &str,
    place: &mut Place<Points, Seats>,
    desk: &mut Sheets,
) -> Result<()> {
    println!(rt; "sheets, {when}")?;
    for sheet in ALL {
        show_sizes(rt, place, sheet)?;
    }
    reopen(rt, place, desk)?;
    for sheet in ALL {
        show_sheet(rt, place, sheet, 250)?;
    }
    Ok(())
}
