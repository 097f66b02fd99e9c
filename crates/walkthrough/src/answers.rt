// Calls and their answers, in words.
use crate::lanes::show_named;
use round::{Answer, Command, Refusal, Settled};
use std::io;

// The call, with the numbers that it names.
pub fn show_call(rt: &HostRuntime, call: Command<'_>) -> io::Result<()> {
    match call {
        Command::Wish(teacher, wishes) => {
            print!(rt; "wish of teacher {teacher} for ")?;
            show_named(rt, "school", wishes)
        }
        Command::Press(lane) => print!(rt; "press lane {lane}"),
        Command::Sweep => print!(rt; "sweep"),
        Command::Settle(budget) => print!(rt; "settle with {budget}"),
        Command::Post => print!(rt; "post"),
    }
}

// The number of the refusal, and what it says in words.
fn show_refusal(rt: &HostRuntime, refusal: Refusal) -> io::Result<()> {
    let number = refusal.number();
    println!(rt; " -> refused {number} ({refusal})")
}

fn show_settled(rt: &HostRuntime, settled: Settled) -> io::Result<()> {
    let presses = settled.presses;
    let left = if settled.over {
        "a lane is still over-asked"
    } else {
        "no lane is over-asked any more"
    };
    println!(rt; " -> accepted (presses: {presses}; {left})")
}

// What the call answered.
pub fn show_answer(rt: &HostRuntime, answer: Answer) -> io::Result<()> {
    match answer {
        Answer::Wish(Ok(())) => println!(rt; " -> accepted (all cutoffs go back to 1)"),
        Answer::Press(Ok(())) => println!(rt; " -> accepted"),
        Answer::Sweep(Ok(raised)) => println!(rt; " -> accepted (lanes raised: {raised})"),
        Answer::Settle(Ok(settled)) => show_settled(rt, settled),
        Answer::Post(Ok(())) => println!(rt; " -> accepted (the round is posted)"),
        Answer::Wish(Err(refusal))
        | Answer::Press(Err(refusal))
        | Answer::Sweep(Err(refusal))
        | Answer::Settle(Err(refusal))
        | Answer::Post(Err(refusal)) => show_refusal(rt, refusal),
    }
}
