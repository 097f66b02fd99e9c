// A place for a round.
use book::Book;
use matching::policy::{Limit, Standing};

// The standing and the limit that the place keeps, and the book of its round.
#[derive(Drop)]
pub struct Place<S: Standing, L: Limit> {
    standing: S,
    limit: L,
    book: Book,
}

pub mod ask;
pub mod calls;
pub mod opening;
pub mod questions;
pub mod trial;
pub mod wishing;
