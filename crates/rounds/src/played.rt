// A round, played through.
use crate::pair::Pair;
use crate::settled::show_settle;
use crate::stop::Result;
use book::Book;
use round::{Place, Refusal};
use rules::{Points, Seats};
use sheets::Sheets;
use std::io::Write;

// Two schools, three lanes of size 1, and three teachers.
const PAIR: Pair = Pair {
    posts: b"schools=2\nsubjects=2\nlanes=3\nlane=1,1,1\nlist=\nlane=1,2,1\nlist=\nlane=2,1,1\nlist=\n",
    staff: b"teachers=3\nhome=1\nmain=1\nalso=2\nwish=2,1\npoints=50\ncost=1\nhome=2\nmain=1\nalso=\nwish=2\npoints=70\ncost=1\nhome=0\nmain=2\nalso=\nwish=1\npoints=90\ncost=1\n",
};

fn show_answer(rt: &HostRuntime, call: &str, answer: Result<(), Refusal>) -> Result<()> {
    match answer {
        Ok(()) => println!(rt; "{call}: accepted")?,
        Err(refusal) => {
            let number = refusal.number();
            println!(rt; "{call}: refused {number}")?
        }
    }
    Ok(())
}

fn show_sweep(rt: &HostRuntime, place: &mut Place<Points, Seats>) -> Result<()> {
    match place.sweep() {
        Ok(rose) => println!(rt; "sweep: {rose} rose")?,
        Err(refusal) => {
            let number = refusal.number();
            println!(rt; "sweep: refused {number}")?
        }
    }
    Ok(())
}

// The result sheet, in a buffer of so many bytes.
fn show_sheet(rt: &HostRuntime, place: &Place<Points, Seats>, size: usize) -> Result<()> {
    let mut room = vec![in rt.alloc(); 46u8; size]?;
    match place.write_result(&mut room) {
        Ok(n) => println!(rt; "result sheet in {size} bytes: {n} bytes")?,
        Err(refusal) => {
            let number = refusal.number();
            println!(rt; "result sheet in {size} bytes: refused {number}")?
        }
    }
    let mut out = rt.stdout();
    out.write_all(&room)?;
    println!(rt; "")?;
    Ok(())
}

// The answer as one number, since a line of the output has one column for both: a refusal by its own, above 1000.
fn shown(answer: Result<u16, Refusal>) -> u16 {
    answer.unwrap_or_else(|refusal| 1000 + u16::from(refusal.number()))
}

// Ranks, cutoffs and offers, known and unknown; 0 is no offer.
fn show_questions(rt: &HostRuntime, place: &Place<Points, Seats>) -> Result<()> {
    for n in 0..5 {
        let offer = shown(place.offer(n).map(|lane| lane.unwrap_or(0)));
        let cutoff = shown(place.cutoff(n));
        let rank = shown(place.rank(3, n));
        println!(rt; "{n}: offer {offer}, cutoff {cutoff}, rank in lane 3 {rank}")?;
    }
    Ok(())
}

// Each of the five calls once.
fn show_all(rt: &HostRuntime, place: &mut Place<Points, Seats>) -> Result<()> {
    show_answer(rt, "wish of teacher 2 for school 1", place.wish(2, &[1]))?;
    show_answer(rt, "press lane 3", place.press(3))?;
    show_sweep(rt, place)?;
    show_settle(rt, place, 1)?;
    show_answer(rt, "post", place.post())
}

// The calls, accepted and refused, in an unopened place and in the opened round.
fn play(rt: &HostRuntime, place: &mut Place<Points, Seats>, desk: &mut Sheets) -> Result<()> {
    show_all(rt, place)?;
    show_sheet(rt, place, 4)?;
    place.open(desk, PAIR.posts, PAIR.staff)?;
    let denied = place.open(desk, PAIR.staff, PAIR.posts).is_err();
    println!(rt; "opening with the sheets exchanged is refused: {denied}")?;
    show_settle(rt, place, 0)?;
    show_answer(rt, "press lane 1", place.press(1))?;
    show_answer(rt, "press lane 0", place.press(0))?;
    show_answer(rt, "press lane 4", place.press(4))?;
    show_answer(rt, "post", place.post())?;
    show_questions(rt, place)?;
    show_sweep(rt, place)?;
    show_sweep(rt, place)?;
    show_questions(rt, place)?;
    show_answer(rt, "wish of teacher 4", place.wish(4, &[1]))?;
    show_answer(rt, "wish for school 3", place.wish(2, &[3]))?;
    show_answer(rt, "wish for school 1 twice", place.wish(2, &[1, 1]))?;
    show_answer(rt, "wish of teacher 2 for school 1", place.wish(2, &[1]))?;
    show_settle(rt, place, 16000)?;
    show_questions(rt, place)?;
    show_answer(rt, "wish of teacher 2 for school 2", place.wish(2, &[2]))?;
    show_settle(rt, place, 1)?;
    show_sheet(rt, place, 29)?;
    show_sheet(rt, place, 30)?;
    show_sheet(rt, place, 40)?;
    show_answer(rt, "post", place.post())?;
    show_all(rt, place)?;
    place.open(desk, PAIR.posts, PAIR.staff)?;
    println!(rt; "opened again")?;
    show_questions(rt, place)
}

pub fn show_round(rt: &HostRuntime) -> Result<()> {
    let mut desk = Sheets::reserve(rt.alloc())?;
    let memory = Book::reserve(rt.alloc())?;
    let points = PAIR.points(&mut desk)?;
    let seats = PAIR.seats(&mut desk)?;
    let mut place = Place::new(points, seats, memory);
    play(rt, &mut place, &mut desk)
}
