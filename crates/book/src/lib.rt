// The book of a round: its tables, ranks, pick lists and cutoffs, in memory that was had before.
#![tactic(auto)]

mod book;
mod ranks;

pub use book::Book;
pub use book::ask::asker_row;
pub use book::trial::{BadRow, TrialRefusal};
pub use ranks::Ranks;
pub use ranks::fill::rank_all;
