// Questions of a round, which change nothing.
ghost use Rattle.std.specs.Prelude.{◌≡◌};
ghost use Rattle.book.specs.Held.{book_model};
ghost use Rattle.book.specs.Result.{raises as raises_of, result_sheet};
ghost use Rattle.book.specs.Rewritten.{posts_in, staff_in};
ghost use Rattle.sheets.specs.Written.{writing};
ghost use Rattle.round.specs.Questions.{offer_asked, cutoff_asked, rank_asked, over_asked_asked};

use super::Place;
use crate::answers::Refusal;
use matching::policy::{Limit, Standing};
use sheets::WriteRefusal;

impl<S: Standing, L: Limit> Place<S, L> {
    // The teacher's offer: the number of a lane, or none.
    pub fn offer(&self, teacher: u16) -> Result<Option<u16>, Refusal>
        ensures { result ≡ offer_asked teacher (book_model self.now.book) }
    {
        let at = self.teacher_at(teacher)?;
        Ok(self.book.offer(at).map(|l| l + 1))
    }

    // The lane's cutoff.
    pub fn cutoff(&self, lane: u16) -> Result<u16, Refusal>
        ensures { result ≡ cutoff_asked lane (book_model self.now.book) }
    {
        let at = self.lane_at(lane)?;
        Ok(self.book.cutoff(at))
    }

    // The teacher's rank in the lane.
    pub fn rank(&self, lane: u16, teacher: u16) -> Result<u16, Refusal>
        ensures { result ≡ rank_asked lane teacher (book_model self.now.book) }
    {
        let l = self.lane_at(lane)?;
        let t = self.teacher_at(teacher)?;
        let rank = self.book.rank(l, t);
        if rank == 0 {
            return Err(Refusal::NotLicensed);
        }
        Ok(rank)
    }

    // Is the lane over-asked: do its askers not fit?
    pub fn is_over_asked(&self, lane: u16) -> Result<bool, Refusal>
        ensures { result ≡ over_asked_asked (L.Limit.family self.now.limit) lane (book_model self.now.book) }
    {
        let at = self.lane_at(lane)?;
        Ok(self.over_asked(at))
    }

    // The raises of the round: over all lanes, the cutoff less 1.
    pub fn raises(&self) -> u16
        ensures { result ≡ raises_of (book_model self.now.book) }
    {
        self.book.raises()
    }

    // Writes the result sheet into the buffer, and answers its length. A short buffer is left as it is.
    pub fn write_result(&self, buf: &mut [u8]) -> Result<usize, WriteRefusal>
        ensures { (result, buf.new) ≡ writing (result_sheet (book_model self.now.book)) buf.old }
    {
        self.book.write_result(buf)
    }

    // Writes the posts sheet of the round into the buffer, and answers its length. A short buffer is left as it is.
    pub fn write_posts(&self, buf: &mut [u8]) -> Result<usize, WriteRefusal>
        ensures { (result, buf.new) ≡ writing (posts_in (book_model self.now.book)) buf.old }
    {
        self.book.write_posts(buf)
    }

    // Writes the staff sheet, with the wishes as they now are, in the same way.
    pub fn write_staff(&self, buf: &mut [u8]) -> Result<usize, WriteRefusal>
        ensures { (result, buf.new) ≡ writing (staff_in (book_model self.now.book)) buf.old }
    {
        self.book.write_staff(buf)
    }
}
