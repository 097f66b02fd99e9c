// The askers of a lane, and trials of its cutoff.
ghost use Rattle.std.specs.Prelude.{◌≡◌};
ghost use Rattle.book.specs.Held.{book_model};
ghost use Rattle.round.specs.Held.{place_of};
ghost use Rattle.round.specs.Questions.{askers_asked, trial_call};

use super::Place;
use crate::answers::Refusal;
use matching::policy::{Limit, Standing};

impl<S: Standing, L: Limit> Place<S, L> {
    // Writes the row of the lane's askers: one byte a teacher, 1 for an asker and 0 for the others. A refusal leaves the row as it is.
    pub fn askers(&self, lane: u16, row: &mut [u8]) -> Result<(), Refusal>
        ensures { (result, row.new) ≡ askers_asked lane (book_model self.now.book) row.old }
    {
        let at = self.lane_at(lane)?;
        self.book.askers(at, row)?;
        Ok(())
    }

    // Puts the lane's cutoff at the tried number, and writes the row of askers that the lane then has. On every way out the old cutoff stands
    // again, and a refusal leaves the row as it is.
    pub fn trial(&mut self, lane: u16, tried: u16, row: &mut [u8]) -> Result<(), Refusal>
        ensures { ((result, row.new), place_of self.new) ≡ trial_call lane tried row.old (place_of self.old) }
    {
        let at = self.lane_at(lane)?;
        self.book.trial(at, tried, row)?;
        Ok(())
    }
}
