// Numbers and comma lists as the sheets write them: read from bytes, and written into a lent buffer.
#![tactic(auto)]

mod reading;
mod writing;

pub use reading::{position_of, read_list, read_number};
pub use writing::{Page, Text};
