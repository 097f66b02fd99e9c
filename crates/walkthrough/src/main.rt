// Follows one posting round of a small district from its sheets to the posting, and tells what happens at each line of the round's log.
#![tactic(auto)]

mod answers;
mod calls;
mod ending;
mod files;
mod lanes;
mod offers;
mod story;
mod walk;

use anyhow::Result;
use calls::sample_calls;
use ending::show_ending;
use sheet_files::read_sheet;
use std::process::ExitCode;
use story::{show_calls, show_opening};
use walk::open_walk;

fn run(rt: &HostRuntime) -> Result<()> {
    let posts = read_sheet(rt, "walkthrough", "posts.txt")?;
    let staff = read_sheet(rt, "walkthrough", "staff.txt")?;
    let mut walk = open_walk(rt, &posts, &staff)?;
    show_opening(rt, &walk)?;
    show_calls(rt, &mut walk, &sample_calls())?;
    show_ending(rt, &walk)?;
    Ok(())
}

// What stops the program has been shown by then, so no error is handed on.
fn main(rt: HostRuntime) -> ExitCode {
    match run(&rt) {
        Ok(()) => ExitCode::SUCCESS,
        Err(_) => ExitCode::FAILURE,
    }
}
