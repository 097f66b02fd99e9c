// How a book is had and changed.
ghost use Rattle.std.specs.Prelude.{◌≡◌, ◌≤◌, map, length, replicate, IfOk};
ghost use Rattle.bounded.specs.Listed.{listed};
ghost use Rattle.matching.specs.Log.{opened};
ghost use Rattle.market.specs.Tables.{wishes_of};
ghost use Rattle.sheets.specs.Held.{model_of};
ghost use Rattle.book.specs.Held.{book_model};
ghost use Rattle.book.specs.Model.{unopened, fixed_from, rank_in, picks_of, opening, lifted, wished, closed};

use super::{Book, Cutoffs, PickLists};
use crate::ranks::Ranks;
use crate::ranks::fill::rank_all;
use bounded::Table;
use market::pick_list;
use matching::policy::Standing;
use sheets::{Sheets, WishRefusal};
use std::alloc::{AllocError, Global};

// The pick lists that the sheets' wishes give, in the place of those that were there.
fn fill_picks(picks: &mut PickLists, sheets: &Sheets)
    ensures { map listed picks.new.items.items ≡ picks_of (model_of sheets.now) }
{
    picks.clear();
    for record in sheets.teachers() {
        let list = pick_list(sheets, record, record.wish.as_slice());
        picks.push(list);
    }
}

// So many cutoffs, all 1.
fn fill_ones(cutoffs: &mut Cutoffs, n: usize)
    requires { n ≤ 80 }
    ensures { cutoffs.new.items.items ≡ replicate n 1 }
{
    cutoffs.clear();
    for _l in 0..n {
        cutoffs.push(1);
    }
}

impl Book {
    // Room for any round, with nothing opened: the only call that can want memory.
    pub fn reserve(heap: Global) -> Result<Book, AllocError>
        ensures { IfOk result (λ b. book_model b ≡ unopened) }
    {
        let sheets = Sheets::reserve(heap)?;
        let ranks = Ranks::reserve(heap)?;
        let picks = Table::reserve(heap)?;
        let cutoffs = Table::reserve(heap)?;
        Ok(Book {
            sheets,
            ranks,
            picks,
            cutoffs,
            posted: true,
        })
    }

    // Forgets the round: nothing is opened then.
    pub fn clear(&mut self)
        ensures { book_model self.new ≡ unopened }
    {
        self.sheets.clear();
        self.picks.clear();
        self.cutoffs.clear();
        self.posted = true;
    }

    // Takes the desk's sheets and gives its own in return: an open round with every cutoff 1. The ranks stay as they are.
    fn take_over(&mut self, desk: &mut Sheets)
        ensures book { book_model self.new ≡ (fixed_from (model_of desk.old) (rank_in self.old.ranks.table.items (length (model_of desk.old).posts.lanes) (length (model_of desk.old).teachers)), opened (wishes_of (model_of desk.old))) }
        ensures desk { model_of desk.new ≡ model_of self.old.sheets }
    {
        std::mem::swap(&mut self.sheets, desk);
        fill_picks(&mut self.picks, &self.sheets);
        fill_ones(&mut self.cutoffs, self.sheets.lanes().len());
        self.posted = false;
    }

    // Raises one cutoff by 1, if there is such a lane; 202, which no rank reaches, is the end.
    pub fn raise(&mut self, l: usize)
        ensures { book_model self.new ≡ lifted (book_model self.old) l }
    {
        if let Some(cutoff) = self.cutoffs.as_slice().get(l) {
            let raised = (*cutoff + 1).min(202);
            self.cutoffs.set(l, raised);
        }
    }

    // Closes the round.
    pub fn close(&mut self)
        ensures { book_model self.new ≡ closed (book_model self.old) }
    {
        self.posted = true;
    }

    // Opens a round with the desk's sheets: the ranks are worked out by asking the standing, every cutoff is 1. The desk gets the old sheets.
    pub fn open<S: Standing>(&mut self, standing: &S, desk: &mut Sheets)
        ensures book { book_model self.new ≡ opening (S.Standing.ahead standing.now) (model_of desk.old) }
        ensures desk { model_of desk.new ≡ model_of self.old.sheets }
    {
        rank_all(standing, desk, &mut self.ranks);
        self.take_over(desk);
    }

    // Gives the teacher at the index another wish list, and sets every cutoff to 1. Where there is no such teacher, or the list is not acceptable,
    // nothing changes.
    pub fn rewish(&mut self, t: usize, wishes: &[u16]) -> Result<(), WishRefusal>
        ensures { (result, book_model self.new) ≡ wished (book_model self.old) t wishes.now }
    {
        self.sheets.rewish(t, wishes)?;
        let record = &self.sheets.teachers()[t];
        let list = pick_list(&self.sheets, record, wishes);
        self.picks.set(t, list);
        fill_ones(&mut self.cutoffs, self.sheets.lanes().len());
        Ok(())
    }
}
