// Lists with a bound: one of numbers, kept in place, and one of any items, in memory that was had before. To add to either wants no memory.
#![tactic(auto)]

mod list;
mod table;

pub use list::{BoundedList, Full};
pub use table::Table;
