// What is asked of all lanes at one line of the log, and how it is shown.
use crate::walk::Walk;
use bounded::BoundedList;
use sheets::Lane;
use std::io;

// The cutoffs of all lanes, lane 1 first. Lists with a bound and no `Vec`, here and below: no memory is wanted while a line is shown.
fn cutoffs(walk: &Walk) -> BoundedList<80> {
    let mut out = BoundedList::new();
    for cutoff in (1..=walk.lane_count()).filter_map(|lane| walk.cutoff(lane)) {
        let _ = out.push(cutoff);
    }
    out
}

// The lanes that are over-asked.
fn over_asked(walk: &Walk) -> BoundedList<80> {
    let mut out = BoundedList::new();
    for lane in (1..=walk.lane_count()).filter(|lane| walk.is_over_asked(*lane)) {
        let _ = out.push(lane);
    }
    out
}

// The teachers whose offer the lane is.
fn askers(walk: &Walk, lane: u16) -> BoundedList<200> {
    let mut out = BoundedList::new();
    for teacher in (1..=walk.teacher_count()).filter(|teacher| walk.offer(*teacher) == Some(lane)) {
        let _ = out.push(teacher);
    }
    out
}

// The numbers, with commas between them.
fn show_numbers(rt: &HostRuntime, numbers: &[u16]) -> io::Result<()> {
    let mut comma = "";
    for n in numbers {
        print!(rt; "{comma}{n}")?;
        comma = ",";
    }
    Ok(())
}

// What the numbers name, as "no school", "school 4" or "schools 4,2".
pub fn show_named(rt: &HostRuntime, noun: &str, numbers: &[u16]) -> io::Result<()> {
    match numbers.len() {
        0 => print!(rt; "no {noun}"),
        1 => {
            print!(rt; "{noun} ")?;
            show_numbers(rt, numbers)
        }
        _ => {
            print!(rt; "{noun}s ")?;
            show_numbers(rt, numbers)
        }
    }
}

// The cutoffs, and which lanes are over-asked.
pub fn show_cutoffs(rt: &HostRuntime, walk: &Walk) -> io::Result<()> {
    print!(rt; "  cutoffs ")?;
    show_numbers(rt, cutoffs(walk).as_slice())?;
    print!(rt; "\n  over-asked lanes: ")?;
    let lanes = over_asked(walk);
    if lanes.as_slice().is_empty() {
        print!(rt; "none")?;
    }
    show_numbers(rt, lanes.as_slice())?;
    println!(rt; "")
}

fn show_lane(rt: &HostRuntime, number: u16, lane: &Lane) -> io::Result<()> {
    let school = lane.school;
    let subject = lane.subject;
    let size = lane.size;
    let seats = if size == 1 { "seat" } else { "seats" };
    print!(rt; "  lane {number} (school {school}, subject {subject}, {size} {seats})")
}

// A line for each lane: what it is, and the teachers whose offer it is.
pub fn show_lanes(rt: &HostRuntime, walk: &Walk, verb: &str) -> io::Result<()> {
    for (number, lane) in (1..=walk.lane_count()).zip(walk.lanes()) {
        show_lane(rt, number, lane)?;
        print!(rt; " {verb} ")?;
        show_named(rt, "teacher", askers(walk, number).as_slice())?;
        println!(rt; "")?;
    }
    Ok(())
}
