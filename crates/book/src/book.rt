// The book of a round.
ghost use Rattle.std.specs.Prelude.{◌≡◌, ℕ, ◌≤◌, map, length, slice_index_or};
ghost use Rattle.bounded.specs.Listed.{listed};
ghost use Rattle.sheets.specs.Held.{model_of};
ghost use Rattle.book.specs.Model.{picks_of};

use super::ranks::Ranks;
use bounded::{BoundedList, Table};
use sheets::Sheets;

// The pick lists of a round's teachers, with room for as many as a sheet may have.
pub(crate) type PickLists = Table<BoundedList<80>, 200>;

// The cutoffs of a round's lanes, with room for as many as a sheet may have.
pub(crate) type Cutoffs = Table<u16, 80>;

// The sheets with the wishes as they now are, the ranks, each teacher's pick list, each lane's cutoff, and whether the round is posted.
#[derive(Drop)]
pub struct Book {
    sheets: Sheets,
    ranks: Ranks,
    picks: PickLists,
    cutoffs: Cutoffs,
    posted: bool,
    ghost sized: { length cutoffs.items.items ≡ length (model_of sheets).posts.lanes },
    ghost low: { (l : ℕ) → slice_index_or cutoffs.items.items l 1 ≤ 202 },
    ghost picked: { map listed picks.items.items ≡ picks_of (model_of sheets) },
}

pub mod ask;
pub mod change;
pub mod result;
pub mod rewritten;
pub mod trial;
