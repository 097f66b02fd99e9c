// The sheets at work: sound and faulty pairs of sheets, a line for each, with what reading answers and what is written then.
#![tactic(auto)]

mod buffers;
mod handed;
mod largest;
mod sample;
mod shown;
mod swaps;
mod tally;
mod wholes;

use buffers::{show_blank, show_buffers};
use handed::show_handed;
use largest::show_largest;
use shown::Reader;
use std::io;
use swaps::show_swaps;
use tally::show_tallies;
use wholes::show_wholes;

fn main(rt: HostRuntime) -> io::Result<()> {
    let mut reader = Reader::reserve(&rt)?;
    println!(rt; "before anything is read:")?;
    show_blank(&reader)?;
    show_swaps(&mut reader)?;
    show_wholes(&mut reader)?;
    show_tallies(&mut reader)?;
    show_largest(&mut reader)?;
    show_buffers(&mut reader)?;
    show_handed(&rt)
}
