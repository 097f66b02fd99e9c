// Rows of askers, and trials.
use crate::stop::Result;
use round::{Place, Refusal};
use rules::{Points, Seats};

// What was asked, the number of the refusal or 0, the row then, and the cutoffs of the round then; 0 where there is no lane.
fn show(
    rt: &HostRuntime,
    place: &Place<Points, Seats>,
    asked: &str,
    answer: Result<(), Refusal>,
    row: &[u8],
) -> Result<()> {
    let number = answer.map_or_else(|refusal| refusal.number(), |()| 0);
    print!(rt; "{asked}: {number}, row")?;
    for b in row {
        print!(rt; " {b}")?;
    }
    let first = place.cutoff(1).unwrap_or(0);
    let second = place.cutoff(2).unwrap_or(0);
    let third = place.cutoff(3).unwrap_or(0);
    println!(rt; ", cutoffs {first} {second} {third}")?;
    Ok(())
}

// The askers of the lane, in a row of so many bytes.
fn show_askers(rt: &HostRuntime, place: &Place<Points, Seats>, lane: u16, n: usize) -> Result<()> {
    let mut row = vec![in rt.alloc(); 7u8; n]?;
    let answer = place.askers(lane, &mut row);
    let asked = format!(in rt.alloc(); "askers of lane {lane} in {n} bytes")?;
    show(rt, place, asked.as_str(), answer, &row)
}

// A trial of the cutoff, with a row of so many bytes.
fn show_trial(
    rt: &HostRuntime,
    place: &mut Place<Points, Seats>,
    lane: u16,
    tried: u16,
    n: usize,
) -> Result<()> {
    let mut row = vec![in rt.alloc(); 7u8; n]?;
    let answer = place.trial(lane, tried, &mut row);
    let asked = format!(in rt.alloc(); "lane {lane} at {tried} in {n} bytes")?;
    show(rt, place, asked.as_str(), answer, &row)
}

// Lane, tried cutoff and bytes of the row: each question in turn gets a no, then all cutoffs that may be tried, and two that may not.
const TRIALS: [(u16, u16, usize); 15] = [
    (0, 1, 3),
    (4, 1, 3),
    (4, 0, 2),
    (3, 0, 3),
    (3, 0, 2),
    (3, 4, 3),
    (3, 65535, 4),
    (3, 2, 2),
    (3, 2, 4),
    (3, 1, 3),
    (3, 2, 3),
    (3, 3, 3),
    (1, 1, 3),
    (2, 1, 3),
    (2, 3, 3),
];

// Every lane's askers, rows of a wrong length, and the trials.
pub fn show_all(rt: &HostRuntime, when: &str, place: &mut Place<Points, Seats>) -> Result<()> {
    println!(rt; "{when}")?;
    for lane in 0..5 {
        show_askers(rt, place, lane, 3)?;
    }
    show_askers(rt, place, 3, 2)?;
    show_askers(rt, place, 3, 4)?;
    show_askers(rt, place, 4, 4)?;
    for (lane, tried, n) in TRIALS {
        show_trial(rt, place, lane, tried, n)?;
    }
    Ok(())
}
