// A place for a posting round: opening it, the five calls, and the log of a round.
#![tactic(auto)]

mod answers;
mod log;
mod place;

pub use answers::{Refusal, Settled};
pub use log::{Answer, Command, Entry};
pub use place::Place;
