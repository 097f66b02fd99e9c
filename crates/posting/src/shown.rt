// What the program shows.
use crate::paths::SheetPaths;
use anyhow::Result;
use lines::{Fault, Sheet};
use round::Place;
use rules::{Points, Seats};
use sheets::line_text;
use std::io::Write;

// The four lines of a refusal on the standard output, and the faulty line's text on the standard error.
pub fn show_fault(
    rt: &HostRuntime,
    paths: &SheetPaths,
    posts: &[u8],
    staff: &[u8],
    fault: Fault,
) -> Result<()> {
    let number = fault.kind.number();
    let sheet = fault.sheet;
    let line = fault.line;
    let place = fault.place;
    println!(rt; "refused={number}\nsheet={sheet}\nline={line}\nplace={place}")?;
    let name = match Sheet::from(sheet) {
        Sheet::Posts => paths.posts.as_str(),
        Sheet::Staff => paths.staff.as_str(),
    };
    let text = line_text(posts, staff, sheet, place);
    eprint!(rt; "posting: {name}, line {line}: ")?;
    let mut out = rt.stderr();
    out.write_all(text)?;
    eprintln!(rt; "")?;
    Err(fault.into())
}

// The result sheet on the standard output.
pub fn show_result(rt: &HostRuntime, place: &Place<Points, Seats>) -> Result<()> {
    let mut room = vec![in rt.alloc(); 0u8; 30000]?;
    let n = place.write_result(&mut room)?;
    if let Some(sheet) = room.get(..n) {
        let mut out = rt.stdout();
        out.write_all(sheet)?;
    }
    Ok(())
}
