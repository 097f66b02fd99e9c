// The market that two sheets describe: licences, bands, completed wish lists and pick lists; and that every market they describe is lawful.
#![tactic(auto)]

mod bands;
mod picks;
pub mod theorems;

pub use bands::bands_of;
pub use picks::pick_list;
