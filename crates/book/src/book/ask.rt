// Questions of a book: cutoffs, ranks and offers.
ghost use Rattle.std.specs.Prelude.{◌≡◌, ℕ, ◌≤◌, length, None, slice_index_or};
ghost use Rattle.matching.specs.Count.{bit};
ghost use Rattle.matching.specs.Groups.{told};
ghost use Rattle.matching.specs.Picks.{holds};
ghost use Rattle.book.specs.Held.{fixed_of, state_of, book_model};
ghost use Rattle.book.specs.Model.{clears_in, pick_list_in, offer_in};

use super::Book;
use std::array;

impl Book {
    // Is the round posted, or not opened yet?
    pub fn is_posted(&self) -> bool
        ensures { result ≡ (state_of self.now).posted }
    {
        self.posted
    }

    // How many lanes the round has.
    pub fn lane_count(&self) -> usize
        ensures value { result ≡ length (fixed_of self.now).posts.lanes }
        ensures few { result ≤ 80 }
    {
        self.sheets.lanes().len()
    }

    // How many teachers the round has.
    pub fn teacher_count(&self) -> usize
        ensures value { result ≡ length (fixed_of self.now).staff }
        ensures few { result ≤ 200 }
    {
        self.sheets.teachers().len()
    }

    // The cutoff of the lane at the index; 1 past the lanes.
    pub fn cutoff(&self, l: usize) -> u16
        ensures { result ≡ (state_of self.now).cuts l }
    {
        self.cutoffs.as_slice().get(l).copied().unwrap_or(1)
    }

    // The rank of the teacher in the lane, both by their index; 0 for one who is not licensed, and no Option, since the table of ranks has it so.
    pub fn rank(&self, l: usize, t: usize) -> u16
        ensures { result ≡ (fixed_of self.now).ranks l t }
    {
        if l < self.lane_count() && t < self.teacher_count() {
            self.ranks.entry(l, t)
        } else {
            0
        }
    }

    // Is the teacher licensed with a rank of at least the cutoff?
    pub fn clears(&self, t: usize, l: usize) -> bool
        ensures { result ≡ clears_in (book_model self.now) t l }
    {
        let rank = self.rank(l, t);
        rank > 0 && self.cutoff(l) <= rank
    }

    // The teacher's pick list; empty past the teachers.
    pub(super) fn pick_list(&self, t: usize) -> &[u16]
        ensures { result.now ≡ pick_list_in (book_model self.now) t }
    {
        match self.picks.as_slice().get(t) {
            Some(list) => list.as_slice(),
            None => &[],
        }
    }

    // The first lane of the teacher's pick list that the teacher clears, by its index; none past the teachers.
    pub fn offer(&self, t: usize) -> Option<u16>
        ensures { result ≡ offer_in (book_model self.now) t }
    {
        self.pick_list(t)
            .iter()
            .copied()
            .find(|l| self.clears(t, usize::from(*l)))
    }

    // The offers of all teachers.
    pub fn offers(&self) -> [Option<u16>; 200]
        ensures long { length result ≡ 200 }
        ensures each { (t : ℕ) → slice_index_or result t None ≡ offer_in (book_model self.now) t }
    {
        // An array with a place for each teacher that there may be: no call allocates, and callers are promised 200 places. Only those of the
        // round's teachers are gone through, so a small round is asked fast.
        let mut offers = [None; 200];
        for (t, offer) in offers[..self.teacher_count()].iter_mut().enumerate() {
            *offer = self.offer(t);
        }
        offers
    }
}

// Is the lane given, if any, this lane?
fn is_lane(lane: Option<u16>, l: usize) -> bool
    ensures { result ≡ holds lane l }
{
    lane.is_some_and(|k| usize::from(k) == l)
}

// 1 if the offer at the index is the lane, else 0; 0 past the offers.
fn mark(offers: &[Option<u16>], t: usize, l: usize) -> u8
    ensures { result ≡ bit (holds (slice_index_or offers.now t None) l) }
{
    u8::from(is_lane(offers.get(t).copied().flatten(), l))
}

// The row of a lane's askers among these offers.
pub fn asker_row(offers: &[Option<u16>], l: usize) -> [u8; 200]
    ensures { length offers.now ≤ 200 → (t : ℕ) → told result t ≡ holds (slice_index_or offers.now t None) l }
{
    // An array, as in `offers`.
    array::from_fn(|t| mark(offers, t, l))
}
