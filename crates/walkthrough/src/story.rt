// The log of the round, a block for each of its lines.
use crate::answers::{show_answer, show_call};
use crate::lanes::{show_cutoffs, show_lanes};
use crate::offers::{offers_now, show_moves};
use crate::walk::Walk;
use round::Command;
use std::io;

// Line 1: the opening.
pub fn show_opening(rt: &HostRuntime, walk: &Walk) -> io::Result<()> {
    let schools = walk.schools();
    let subjects = walk.subjects();
    let lanes = walk.lane_count();
    let teachers = walk.teacher_count();
    println!(rt; "line 1: open posts.txt and staff.txt -> accepted")?;
    println!(rt; "  {schools} schools, {subjects} subjects, {lanes} lanes, {teachers} teachers")?;
    show_lanes(rt, walk, "is asked for by")?;
    show_cutoffs(rt, walk)
}

// Carries out one call and tells what came of it.
fn show_line(rt: &HostRuntime, walk: &mut Walk, line: usize, call: Command<'_>) -> io::Result<()> {
    let before = offers_now(rt.alloc(), walk)?;
    print!(rt; "line {line}: ")?;
    show_call(rt, call)?;
    let answer = walk.carry_out(call);
    show_answer(rt, answer)?;
    show_cutoffs(rt, walk)?;
    let after = offers_now(rt.alloc(), walk)?;
    show_moves(rt, &before, &after)
}

// Carries out the calls, from line 2 on.
pub fn show_calls(rt: &HostRuntime, walk: &mut Walk, calls: &[Command<'_>]) -> io::Result<()> {
    for (i, call) in calls.iter().enumerate() {
        show_line(rt, walk, i.saturating_add(2), *call)?;
    }
    Ok(())
}
