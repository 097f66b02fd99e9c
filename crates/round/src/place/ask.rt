// What a call asks first, and over-asked lanes.
ghost use Rattle.std.specs.Prelude.{◌≡◌, ℕ, ◌≤◌, false, length, None, slice_index_or};
ghost use Rattle.book.specs.Held.{book_model};
ghost use Rattle.book.specs.Model.{offer_in};
ghost use Rattle.round.specs.Calls.{over_in, next_in, index_of, still_open};

use super::Place;
use crate::answers::Refusal;
use book::asker_row;
use matching::numbers::is_within;
use matching::policy::{Limit, Standing};

// The index of the number n, which counts from 1 to the last; or the refusal, if n is none of them.
fn index_of(n: u16, last: usize, refusal: Refusal) -> Result<usize, Refusal>
    ensures { result ≡ index_of n last refusal }
{
    if is_within(n, last) {
        Ok((n - 1) as usize)
    } else {
        Err(refusal)
    }
}

impl<S: Standing, L: Limit> Place<S, L> {
    // Denies a call of a round that is posted.
    pub(crate) fn must_be_open(&self) -> Result<(), Refusal>
        ensures { result ≡ still_open (book_model self.now.book) }
    {
        if self.book.is_posted() {
            return Err(Refusal::Posted);
        }
        Ok(())
    }

    // The index of the lane with the number.
    pub(crate) fn lane_at(&self, lane: u16) -> Result<usize, Refusal>
        ensures { result ≡ index_of lane (length (book_model self.now.book).0.posts.lanes) Refusal.NoLane }
    {
        index_of(lane, self.book.lane_count(), Refusal::NoLane)
    }

    // The index of the teacher with the number.
    pub(crate) fn teacher_at(&self, teacher: u16) -> Result<usize, Refusal>
        ensures { result ≡ index_of teacher (length (book_model self.now.book).0.staff) Refusal.NoTeacher }
    {
        index_of(teacher, self.book.teacher_count(), Refusal::NoTeacher)
    }

    // Do those who are offered the lane at the index not fit? The limit is asked with the row of its askers.
    #[tactic(auto, unfolding(matching::specs::Market::over_asked))]
    fn is_crowded(&self, offers: &[Option<u16>], l: usize) -> bool
        requires long { length offers.now ≤ 200 }
        requires each { (t : ℕ) → slice_index_or offers.now t None ≡ offer_in (book_model self.now.book) t }
        ensures { result ≡ over_in (L.Limit.family self.now.limit) (book_model self.now.book) l }
    {
        if l >= self.book.lane_count() {
            return false;
        }
        let row = asker_row(offers, l);
        !self.limit.fits((l + 1) as u16, &row)
    }

    // Is the lane at the index over-asked?
    pub(crate) fn over_asked(&self, l: usize) -> bool
        ensures { result ≡ over_in (L.Limit.family self.now.limit) (book_model self.now.book) l }
    {
        let offers = self.book.offers();
        self.is_crowded(&offers, l)
    }

    // The first over-asked lane, by its index.
    pub(crate) fn first_over(&self) -> Option<usize>
        ensures { result ≡ next_in (L.Limit.family self.now.limit) (book_model self.now.book) }
    {
        let offers = self.book.offers();
        (0..self.book.lane_count()).find(|l| self.is_crowded(&offers, *l))
    }

    // Which lanes are over-asked. They stand in an array, for at most 80 lanes, since no call allocates; only those of the round are gone through.
    pub(crate) fn over_marks(&self) -> [bool; 80]
        ensures long { length result ≡ 80 }
        ensures marks { (l : ℕ) → slice_index_or result l false ≡ over_in (L.Limit.family self.now.limit) (book_model self.now.book) l }
    {
        let offers = self.book.offers();
        let mut marks = [false; 80];
        for (l, mark) in marks[..self.book.lane_count()].iter_mut().enumerate() {
            *mark = self.is_crowded(&offers, l);
        }
        marks
    }
}
