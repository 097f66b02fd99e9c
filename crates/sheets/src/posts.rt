// The posts sheet, read into a table that has room for it.
ghost use Rattle.std.specs.Prelude.{◌≡◌, ◌^◌, ◌<◌, ◌≤◌, ◌&&◌, map, ◌==◌};
ghost use Rattle.bounded.specs.Listed.{listed};
ghost use Rattle.lines.specs.Faults.{seen};
ghost use Rattle.sheets.specs.Model.{lane_record};
ghost use Rattle.sheets.specs.Tables.{posts_model};
ghost use Rattle.sheets.specs.Posts.{taken as taken_of, lane_within, lane_line, lane as lane_of, lanes as lanes_of, posts_of};

use super::records::{Counts, Lane, Lanes};
use super::spots::at;
use bounded::BoundedList;
use lines::Sheet::Posts;
use lines::{Fault, FaultKind, Key, Spot, field, number_at, single, unrepeated};

// Has the lane this school and subject? No derived equality says it: two lanes may differ in size and list.
fn same_pair(l: &Lane, school: u16, subject: u16) -> bool
    ensures { result ≡ (l.now.school == school && l.now.subject == subject) }
{
    l.school == school && l.subject == subject
}

// Has one of the lanes this school and subject?
fn taken(school: u16, subject: u16, done: &[Lane]) -> bool
    ensures { result ≡ taken_of school subject (map lane_record done.now) }
{
    done.iter().any(|l| same_pair(l, school, subject))
}

fn lane_in_range(school: u16, subject: u16, size: u16, counts: Counts) -> bool
    ensures { result ≡ lane_within counts.schools counts.subjects school subject size }
{
    (1..=counts.schools).contains(&school)
        && (1..=counts.subjects).contains(&subject)
        && size <= 60000
}

// School, subject and size of a lane, and the place behind their line.
fn read_lane_line(
    bytes: &[u8],
    counts: Counts,
    done: &[Lane],
    at: Spot,
) -> Result<(BoundedList<3>, usize), Fault>
    ensures { seen (λ p. (listed p.0, p.1)) result ≡ lane_line counts.schools counts.subjects bytes.now (map lane_record done.now) at }
{
    let (ns, behind) = field::<3>(bytes, at, Key::Lane, 3)?;
    let school = number_at(ns.as_slice(), 0);
    let subject = number_at(ns.as_slice(), 1);
    let size = number_at(ns.as_slice(), 2);
    if !lane_in_range(school, subject, size, counts) {
        return Err(at.fault(FaultKind::OutOfRange));
    }
    if taken(school, subject, done) {
        return Err(at.fault(FaultKind::PairTaken));
    }
    Ok((ns, behind))
}

// The two lines of a lane, and the place behind them.
fn read_lane(
    bytes: &[u8],
    counts: Counts,
    done: &[Lane],
    line: usize,
    place: usize,
) -> Result<(Lane, usize), Fault>
    requires { line < 2 ^ 32 }
    ensures { seen (λ p. (lane_record p.0, p.1)) result ≡ lane_of counts.schools counts.subjects bytes.now (map lane_record done.now) line place }
{
    let (ns, place) = read_lane_line(bytes, counts, done, at(Posts, line, place))?;
    let (list, place) = unrepeated::<20>(bytes, at(Posts, line + 1, place), Key::List, 200)?;
    let lane = Lane {
        school: number_at(ns.as_slice(), 0),
        subject: number_at(ns.as_slice(), 1),
        size: number_at(ns.as_slice(), 2),
        list,
    };
    Ok((lane, place))
}

// The lanes, in the place of those in the table, and the place behind them. Unlike a teacher, a lane is read in sight of those before it.
fn fill_lanes(
    all: &mut Lanes,
    bytes: &[u8],
    counts: Counts,
    count: u16,
    start: usize,
) -> Result<usize, Fault>
    requires { count ≤ 80 }
    ensures { seen (λ p. (map lane_record all.new.items.items, p)) result ≡ lanes_of count counts.schools counts.subjects bytes.now start }
{
    all.clear();
    let mut place = start;
    let mut line = 4;
    for _i in 0..count {
        let (lane, next) = read_lane(bytes, counts, all.as_slice(), line, place)?;
        all.push(lane);
        place = next;
        line += 2;
    }
    Ok(place)
}

// The posts sheet: the lanes into the table, and how many schools and subjects there are.
pub(crate) fn read_posts(all: &mut Lanes, bytes: &[u8]) -> Result<Counts, Fault>
    ensures { seen (λ p. posts_model p.schools p.subjects all.new.items.items) result ≡ posts_of bytes.now }
{
    if bytes.len() > 30000 {
        return Err(at(Posts, 0, 0).fault(FaultKind::TooLong));
    }
    let (schools, place) = single(bytes, at(Posts, 1, 0), Key::Schools, 1, 30)?;
    let (subjects, place) = single(bytes, at(Posts, 2, place), Key::Subjects, 1, 10)?;
    let (count, place) = single(bytes, at(Posts, 3, place), Key::Lanes, 1, 80)?;
    let counts = Counts { schools, subjects };
    let place = fill_lanes(all, bytes, counts, count, place)?;
    if place != bytes.len() {
        let behind = at(Posts, 4 + 2 * count as usize, place);
        return Err(behind.fault(FaultKind::Trailing));
    }
    Ok(counts)
}
