// Opens a posting round from the two sheets, settles it and prints the result sheet, or shows what is wrong with the sheets.
#![tactic(auto)]

mod paths;
mod shown;

use anyhow::{Result, bail};
use book::Book;
use lines::Fault;
use paths::{SheetPaths, sheet_paths};
use round::{Answer, Command, Entry, Place};
use rules::{Points, Seats};
use sheet_files::read_sheet;
use sheets::Sheets;
use shown::{show_fault, show_result};
use std::process::ExitCode;

// Fills the standing and the limit from the sheets: points decide, and a lane has as many seats as its size.
fn fill_rules(
    points: &mut Points,
    seats: &mut Seats,
    desk: &mut Sheets,
    posts: &[u8],
    staff: &[u8],
) -> Result<(), Fault> {
    points.fill(desk, posts, staff)?;
    seats.fill(desk, posts, staff)
}

// The calls of the round: one settle, with a budget that always suffices.
fn settle_log<'a>() -> [Entry<'a>; 1] {
    [Entry {
        call: Command::Settle(16000),
        answer: None,
    }]
}

// Did the settle leave no lane over-asked? A budget of 16,000 always does.
fn is_calm(answer: Option<Answer>) -> bool {
    matches!(answer, Some(Answer::Settle(Ok(settled))) if !settled.over)
}

fn run(rt: &HostRuntime, paths: &SheetPaths) -> Result<()> {
    let posts = read_sheet(rt, "posting", paths.posts.as_str())?;
    let staff = read_sheet(rt, "posting", paths.staff.as_str())?;
    let mut desk = Sheets::reserve(rt.alloc())?;
    let memory = Book::reserve(rt.alloc())?;
    let mut points = Points::new();
    let mut seats = Seats::new();
    if let Err(fault) = fill_rules(&mut points, &mut seats, &mut desk, &posts, &staff) {
        return show_fault(rt, paths, &posts, &staff, fault);
    }
    let mut place = Place::new(points, seats, memory);
    let mut log = settle_log();
    if let Err(fault) = place.keep_log(&mut desk, &posts, &staff, &mut log) {
        return show_fault(rt, paths, &posts, &staff, fault);
    }
    if !is_calm(log[0].answer) {
        bail!("a lane is still over-asked");
    }
    show_result(rt, &place)
}

fn start(rt: &HostRuntime) -> Result<()> {
    let paths = sheet_paths(rt)?;
    run(rt, &paths)
}

// What stops the program has been shown by then, so no error is handed on.
fn main(rt: HostRuntime) -> ExitCode {
    match start(&rt) {
        Ok(()) => ExitCode::SUCCESS,
        Err(_) => ExitCode::FAILURE,
    }
}
