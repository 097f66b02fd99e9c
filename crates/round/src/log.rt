// Calls and their answers, as a log has them.
use crate::answers::{Refusal, Settled};

// A call, with the numbers that it names.
#[derive(Clone, Copy, Debug, PartialEq, Eq)]
pub enum Command<'a> {
    Wish(u16, &'a [u16]),
    Press(u16),
    Sweep,
    Settle(u32),
    Post,
}

// What a call answered.
#[derive(Clone, Copy, Debug, PartialEq, Eq)]
pub enum Answer {
    Wish(Result<(), Refusal>),
    Press(Result<(), Refusal>),
    Sweep(Result<u16, Refusal>),
    Settle(Result<Settled, Refusal>),
    Post(Result<(), Refusal>),
}

// A line of a log: a call, and its answer; none while the call has not been carried out.
#[derive(Clone, Copy, Debug, PartialEq, Eq)]
pub struct Entry<'a> {
    pub call: Command<'a>,
    pub answer: Option<Answer>,
}
