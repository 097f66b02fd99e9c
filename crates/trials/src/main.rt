// Rows of askers, trials and written sheets at work, one line a case, through the calls that a district makes.
#![tactic(auto)]

mod rows;
mod stop;
mod written;

use book::Book;
use round::Place;
use rows::show_all;
use rules::{Points, Seats};
use sheets::Sheets;
use stop::Result;
use written::show_sheets;

// Two schools, three lanes of size 1, and three teachers.
const POSTS: &[u8] =
    b"schools=2\nsubjects=2\nlanes=3\nlane=1,1,1\nlist=\nlane=1,2,1\nlist=\nlane=2,1,1\nlist=\n";

const STAFF: &[u8] =
    b"teachers=3\nhome=1\nmain=1\nalso=2\nwish=2,1\npoints=50\ncost=1\nhome=2\nmain=1\nalso=\nwish=2\npoints=70\ncost=1\nhome=0\nmain=2\nalso=\nwish=1\npoints=90\ncost=1\n";

// A place that goes by the points and sizes of the two sheets, unopened.
fn made(rt: &HostRuntime, desk: &mut Sheets) -> Result<Place<Points, Seats>> {
    let memory = Book::reserve(rt.alloc())?;
    let mut points = Points::new();
    points.fill(desk, POSTS, STAFF)?;
    let mut seats = Seats::new();
    seats.fill(desk, POSTS, STAFF)?;
    Ok(Place::new(points, seats, memory))
}

// A sheet or a call of the program's own that is refused stops it.
fn main(rt: HostRuntime) -> Result<()> {
    let mut desk = Sheets::reserve(rt.alloc())?;
    let mut place = made(&rt, &mut desk)?;
    show_all(&rt, "unopened", &mut place)?;
    show_sheets(&rt, "unopened", &mut place, &mut desk)?;
    place.open(&mut desk, POSTS, STAFF)?;
    show_all(&rt, "opened", &mut place)?;
    place.settle(16000)?;
    show_all(&rt, "settled", &mut place)?;
    show_sheets(&rt, "settled", &mut place, &mut desk)?;
    place.wish(2, &[1])?;
    place.post()?;
    show_all(&rt, "posted with another wish", &mut place)?;
    show_sheets(&rt, "posted with another wish", &mut place, &mut desk)?;
    show_all(&rt, "opened again from its sheets", &mut place)
}
