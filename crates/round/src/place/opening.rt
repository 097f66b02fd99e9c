// Making a place, opening it, and carrying out a log.
ghost use Rattle.std.specs.Prelude.{◌≡◌, length};
ghost use Rattle.book.specs.Held.{book_model};
ghost use Rattle.book.specs.Model.{unopened};
ghost use Rattle.sheets.specs.Held.{model_of};
ghost use Rattle.sheets.specs.Read.{sheets_of};
ghost use Rattle.round.specs.Held.{place_of, on_place};
ghost use Rattle.round.specs.Log.{call_of, answer_call, open_call, desk_left};
ghost use Rattle.round.specs.Promise.{calls_of, answers_of, LogKept, LogWritten};
ghost use Rattle.round.specs.Running.{ran_place, AnsweredTo};

use super::Place;
use crate::log::{Answer, Command, Entry};
use book::Book;
use lines::Fault;
use matching::policy::{Limit, Standing};
use sheets::Sheets;

impl<S: Standing, L: Limit> Place<S, L> {
    // A place that keeps the standing and the limit, with nothing opened, in memory that was had before.
    pub fn new(standing: S, limit: L, memory: Book) -> Place<S, L>
        ensures { place_of result ≡ record { standing = standing; limit = limit; round = unopened } }
    {
        let mut book = memory;
        book.clear();
        Place {
            standing,
            limit,
            book,
        }
    }

    // Opens a round from two sheets, which are read on the desk; a fault is handed on whole and leaves the round
    // as it was. The desk gets the sheets of the round before, or nothing after a fault.
    pub fn open(&mut self, desk: &mut Sheets, posts: &[u8], staff: &[u8]) -> Result<(), Fault>
        ensures value { (result, place_of self.new) ≡ open_call S.Standing.ahead (sheets_of posts.now staff.now) (place_of self.old) }
        ensures desk { model_of desk.new ≡ desk_left (sheets_of posts.now staff.now) (book_model self.old.book) }
    {
        desk.read(posts, staff)?;
        self.book.open(&self.standing, desk);
        Ok(())
    }

    // Carries out one call, accepted or denied.
    pub fn carry_out(&mut self, call: Command<'_>) -> Answer
        ensures { (result, place_of self.new) ≡ on_place L.Limit.family (λ family. answer_call family (call_of call.entry)) (place_of self.old) }
    {
        match call {
            Command::Wish(teacher, wishes) => Answer::Wish(self.wish(teacher, wishes)),
            Command::Press(lane) => Answer::Press(self.press(lane)),
            Command::Sweep => Answer::Sweep(self.sweep()),
            Command::Settle(budget) => Answer::Settle(self.settle(budget)),
            Command::Post => Answer::Post(self.post()),
        }
    }

    // Carries out the calls of the entries, one after the other, and writes down what each answered.
    fn carry_out_all(&mut self, entries: &mut [Entry<'_>])
        ensures place { place_of self.new ≡ ran_place L.Limit.family (place_of self.old) (calls_of entries.old) }
        ensures calls { calls_of entries.new ≡ calls_of entries.old }
        ensures answers { AnsweredTo (L.Limit.family self.old.limit) (book_model self.old.book) (calls_of entries.old) (length (calls_of entries.old)) (answers_of entries.new) }
    {
        for entry in entries.iter_mut() {
            entry.answer = Some(self.carry_out(entry.call));
        }
    }

    // Opens a round from two sheets and carries out the calls of the entries, in whatever number and order, writing down what each of them
    // answered. At every line of the log each teacher's offer is at least as good as what any fair assignment gives; the offers are a fair
    // assignment once no lane is over-asked; and where there is room for the incumbents, each has an offer.
    pub fn keep_log(
        &mut self,
        desk: &mut Sheets,
        posts: &[u8],
        staff: &[u8],
        entries: &mut [Entry<'_>],
    ) -> Result<(), Fault>
        ensures log { LogKept S.Standing.ahead L.Limit.family posts.now staff.now (place_of self.old) (place_of self.new) entries.old entries.new result }
        ensures written { LogWritten S.Standing.ahead (place_of self.old) (place_of self.new) (model_of desk.new) result }
    {
        self.open(desk, posts, staff)?;
        self.carry_out_all(entries);
        Ok(())
    }
}
