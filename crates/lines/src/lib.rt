// One line of a sheet: its key, its numbers with their ranges and order, and what is wrong with it; and the line as written.
#![tactic(auto)]

mod entries;
mod faults;
mod keys;
mod lines;
mod writes;

pub use entries::{all_in_range, distinct, holds, licences, number_at, single, unrepeated};
pub use faults::{Fault, FaultKind, Layer, Sheet, Spot};
pub use keys::Key;
pub use lines::{Line, field};
pub use writes::put_line;
