// Rows of many lengths, and caps on caps.
use crate::pair::Pair;
use crate::stop::Result;
use matching::policy::Limit;
use rules::{Purse, Seats};
use sheets::Sheets;

// One lane of size 2, and three teachers: an incumbent who costs 1, and newcomers who cost 2 and 0.
const PAIR: Pair = Pair {
    posts: b"schools=1\nsubjects=1\nlanes=1\nlane=1,1,2\nlist=\n",
    staff: b"teachers=3\nhome=1\nmain=1\nalso=\nwish=\npoints=5\ncost=1\nhome=0\nmain=1\nalso=\nwish=\npoints=5\ncost=2\nhome=0\nmain=1\nalso=\nwish=\npoints=5\ncost=0\n",
};

// What both limits say of a row of so many bytes, all of them the mark.
fn show_row(rt: &HostRuntime, seats: &Seats, purse: &Purse, n: usize, mark: u8) -> Result<()> {
    let row = vec![in rt.alloc(); mark; n]?;
    let in_seats = seats.fits(1, &row);
    let in_purse = purse.fits(1, &row);
    let nowhere = seats.fits(2, &row);
    println!(rt;
        "row of {n} bytes {mark}: seats {in_seats}, purse {in_purse}, seats of an unknown lane {nowhere}"
    )?;
    Ok(())
}

// What both limits say of a row with one mark, at the place.
fn show_mark(rt: &HostRuntime, seats: &Seats, purse: &Purse, n: usize, at: usize) -> Result<()> {
    let mut row = vec![in rt.alloc(); 0u8; n]?;
    if let Some(mark) = row.get_mut(at) {
        *mark = 7;
    }
    let in_seats = seats.fits(1, &row);
    let in_purse = purse.fits(1, &row);
    let nowhere = purse.fits(2, &row);
    println!(rt;
        "row of {n} bytes with a mark at {at}: seats {in_seats}, purse {in_purse}, purse of an unknown lane {nowhere}"
    )?;
    Ok(())
}

// Rows of 0, 1, 199, 200, 201 and 1,000 bytes.
pub fn show_rows(rt: &HostRuntime) -> Result<()> {
    let mut desk = Sheets::reserve(rt.alloc())?;
    let seats = PAIR.seats(&mut desk)?;
    let purse = PAIR.purse(&mut desk)?;
    for n in [0, 1, 2, 3, 199, 200, 201, 1000] {
        show_row(rt, &seats, &purse, n, 1)?;
        show_row(rt, &seats, &purse, n, 0)?;
    }
    show_mark(rt, &seats, &purse, 3, 2)?;
    show_mark(rt, &seats, &purse, 200, 199)?;
    show_mark(rt, &seats, &purse, 201, 200)?;
    show_mark(rt, &seats, &purse, 1000, 999)
}

// Caps of 1 and 2 over seats, and one on the other.
pub fn show_caps(rt: &HostRuntime) -> Result<()> {
    let mut desk = Sheets::reserve(rt.alloc())?;
    let seats = PAIR.seats(&mut desk)?;
    let cap = PAIR.cap(&mut desk, seats, 1)?;
    let one_newcomer = cap.fits(1, &[1, 1, 0]);
    let two_newcomers = cap.fits(1, &[0, 1, 1]);
    println!(rt; "cap of 1: with one newcomer {one_newcomer}, with two {two_newcomers}")?;
    let caps = PAIR.cap(&mut desk, cap, 300)?;
    let one_newcomer = caps.fits(1, &[1, 1]);
    let two_newcomers = caps.fits(1, &[0, 1, 1]);
    let over = caps.fits(1, &[1, 1, 1]);
    let past = caps.fits(1, &[1, 0, 0, 1]);
    println!(rt;
        "cap of 300 over it: with one newcomer {one_newcomer}, with two {two_newcomers}, three in all {over}, an unknown teacher {past}"
    )?;
    Ok(())
}
