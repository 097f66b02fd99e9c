// The standings and limits that we ship: points and list; seats, purse and the newcomer cap. Each is filled from the two sheets and is an
// ordinary implementation of the traits: nothing above knows one by name.
#![tactic(auto)]

mod cap;
mod columns;
mod lists;
mod points;
mod purse;
mod rows;
mod seats;

pub use cap::Cap;
pub use lists::Lists;
pub use points::Points;
pub use purse::Purse;
pub use seats::Seats;
