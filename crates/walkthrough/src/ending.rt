// Who sits where in the end, and which wish of the teacher that was.
ghost use Rattle.std.specs.Prelude.{◌≡◌};
ghost use Rattle.sheets.specs.Model.{lane_record, teacher_record};
ghost use Rattle.walkthrough.specs.Sources.{wished_at, source as source_of};

use crate::lanes::show_lanes;
use crate::walk::Walk;
use sheets::{Lane, Teacher};
use std::{fmt, io};

// How a lane came onto the teacher's pick list.
#[derive(Clone, Copy)]
enum Source {
    // its school is a wish: this one, counted from 0
    Wish(usize),
    // its school is no wish; an incumbent's list goes on with all other schools, and the lane has the teacher's own subject
    OwnSubject,
    // the same, and the lane has a subject of a further licence
    OtherSubject,
}

// The place of the school on the wish list, from 0.
fn place_in(wishes: &[u16], school: u16) -> Option<usize>
    ensures { result ≡ wished_at school wishes.now }
{
    wishes.iter().position(|wish| *wish == school)
}

// Where the lane came from onto the teacher's pick list.
fn source_of(teacher: &Teacher, lane: &Lane) -> Source
    ensures { result ≡ source_of (teacher_record teacher.now) (lane_record lane.now) }
{
    match place_in(teacher.wish.as_slice(), lane.school) {
        Some(i) => Source::Wish(i),
        None if lane.subject == teacher.main => Source::OwnSubject,
        None => Source::OtherSubject,
    }
}

// The twelve places of a wish list.
const PLACES: [&str; 12] = [
    "first", "second", "third", "fourth", "fifth", "sixth", "seventh", "eighth", "ninth", "tenth",
    "eleventh", "twelfth",
];

impl fmt::Display for Source {
    fn fmt<W: fmt::Write>(&self, f: &mut fmt::Formatter<W>) -> fmt::Result {
        match self {
            Source::Wish(i) => write!(f, "{} wish", PLACES.get(*i).unwrap_or(&"twelfth")),
            Source::OwnSubject => f.write_str("not wished: own subject's continuation"),
            Source::OtherSubject => f.write_str("not wished: a further subject's continuation"),
        }
    }
}

// The lane with the number, if there is one.
fn lane_numbered(lanes: &[Lane], number: u16) -> Option<&Lane> {
    lanes.get(usize::from(number).checked_sub(1)?)
}

fn show_teacher(rt: &HostRuntime, number: u16, teacher: &Teacher) -> io::Result<()> {
    let home = teacher.home;
    let main = teacher.main;
    if home == 0 {
        print!(rt; "  teacher {number} (newcomer, subject {main}): ")
    } else {
        print!(rt; "  teacher {number} (from school {home}, subject {main}): ")
    }
}

fn show_seat(rt: &HostRuntime, walk: &Walk, number: u16, teacher: &Teacher) -> io::Result<()> {
    let Some(offer) = walk.offer(number) else {
        return println!(rt; "none");
    };
    let Some(lane) = lane_numbered(walk.lanes(), offer) else {
        return println!(rt; "none");
    };
    let school = lane.school;
    let subject = lane.subject;
    let source = source_of(teacher, lane);
    println!(rt; "lane {offer}, school {school}, subject {subject}; {source}")
}

// A line for each lane and a line for each teacher.
pub fn show_ending(rt: &HostRuntime, walk: &Walk) -> io::Result<()> {
    println!(rt; "who sits where, by lane:")?;
    show_lanes(rt, walk, "has")?;
    println!(rt; "who sits where, by teacher:")?;
    for (number, teacher) in (1..=walk.teacher_count()).zip(walk.teachers()) {
        show_teacher(rt, number, teacher)?;
        show_seat(rt, walk, number, teacher)?;
    }
    Ok(())
}
