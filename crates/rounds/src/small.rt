// Small rounds under purse, seats and cap, settled with several budgets.
use crate::pair::Pair;
use crate::settled::show_settle;
use crate::stop::Result;
use book::Book;
use matching::policy::{Limit, Standing};
use round::Place;
use sheets::Sheets;
use std::io::Write;

// One lane of size 20, and ten newcomers who cost 3 and 4 by turns.
const WIDE: Pair = Pair {
    posts: b"schools=1\nsubjects=1\nlanes=1\nlane=1,1,20\nlist=\n",
    staff: b"teachers=10\nhome=0\nmain=1\nalso=\nwish=1\npoints=40\ncost=3\nhome=0\nmain=1\nalso=\nwish=1\npoints=40\ncost=4\nhome=0\nmain=1\nalso=\nwish=1\npoints=40\ncost=3\nhome=0\nmain=1\nalso=\nwish=1\npoints=40\ncost=4\nhome=0\nmain=1\nalso=\nwish=1\npoints=40\ncost=3\nhome=0\nmain=1\nalso=\nwish=1\npoints=40\ncost=4\nhome=0\nmain=1\nalso=\nwish=1\npoints=40\ncost=3\nhome=0\nmain=1\nalso=\nwish=1\npoints=40\ncost=4\nhome=0\nmain=1\nalso=\nwish=1\npoints=40\ncost=3\nhome=0\nmain=1\nalso=\nwish=1\npoints=40\ncost=4\n",
};

// One lane without a seat, and a newcomer.
const CLOSED: Pair = Pair {
    posts: b"schools=1\nsubjects=1\nlanes=1\nlane=1,1,0\nlist=\n",
    staff: b"teachers=1\nhome=0\nmain=1\nalso=\nwish=1\npoints=40\ncost=3\n",
};

// One lane of size 3, its own incumbent and two newcomers.
const THREE_SEATS: Pair = Pair {
    posts: b"schools=1\nsubjects=1\nlanes=1\nlane=1,1,3\nlist=\n",
    staff: b"teachers=3\nhome=1\nmain=1\nalso=\nwish=1\npoints=40\ncost=3\nhome=0\nmain=1\nalso=\nwish=1\npoints=40\ncost=3\nhome=0\nmain=1\nalso=\nwish=1\npoints=40\ncost=4\n",
};

// Settles with the budget, and shows the presses and the result sheet.
fn show_settled<S: Standing, L: Limit>(
    rt: &HostRuntime,
    place: &mut Place<S, L>,
    budget: u32,
) -> Result<()> {
    show_settle(rt, place, budget)?;
    let mut room = vec![in rt.alloc(); 0u8; 2000]?;
    let n = place.write_result(&mut room).unwrap_or(0);
    if let Some(sheet) = room.get(..n) {
        let mut out = rt.stdout();
        out.write_all(sheet)?;
    }
    Ok(())
}

// Ten newcomers under a purse, opened again before each budget.
pub fn show_purse(rt: &HostRuntime) -> Result<()> {
    println!(rt; "ten newcomers under a purse of 20")?;
    let mut desk = Sheets::reserve(rt.alloc())?;
    let memory = Book::reserve(rt.alloc())?;
    let points = WIDE.points(&mut desk)?;
    let purse = WIDE.purse(&mut desk)?;
    let mut place = Place::new(points, purse, memory);
    show_settled(rt, &mut place, 1)?;
    for budget in [0, 1, 4, 5, 16000, 4294967295] {
        place.open(&mut desk, WIDE.posts, WIDE.staff)?;
        show_settled(rt, &mut place, budget)?;
    }
    Ok(())
}

// A lane without a seat.
pub fn show_closed(rt: &HostRuntime) -> Result<()> {
    println!(rt; "a lane without a seat")?;
    let mut desk = Sheets::reserve(rt.alloc())?;
    let memory = Book::reserve(rt.alloc())?;
    let points = CLOSED.points(&mut desk)?;
    let seats = CLOSED.seats(&mut desk)?;
    let mut place = Place::new(points, seats, memory);
    place.open(&mut desk, CLOSED.posts, CLOSED.staff)?;
    show_settled(rt, &mut place, 16000)
}

// Three seats, of which one newcomer at most may have one.
pub fn show_cap(rt: &HostRuntime) -> Result<()> {
    println!(rt; "three seats and at most one newcomer")?;
    let mut desk = Sheets::reserve(rt.alloc())?;
    let memory = Book::reserve(rt.alloc())?;
    let points = THREE_SEATS.points(&mut desk)?;
    let seats = THREE_SEATS.seats(&mut desk)?;
    let cap = THREE_SEATS.cap(&mut desk, seats, 1)?;
    let mut place = Place::new(points, cap, memory);
    place.open(&mut desk, THREE_SEATS.posts, THREE_SEATS.staff)?;
    show_settled(rt, &mut place, 16000)
}
