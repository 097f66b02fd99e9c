// The calls of a round.
ghost use Rattle.std.specs.Prelude.{◌≡◌};
ghost use Rattle.round.specs.Calls.{press_call, settle_call, sweep_call, post_call};
ghost use Rattle.round.specs.Held.{place_of, on_place};

use super::Place;
use crate::answers::{Refusal, Settled};
use matching::policy::{Limit, Standing};

#[tactic(auto, unfolding(matching::specs::Log::after))]
impl<S: Standing, L: Limit> Place<S, L> {
    // Raises the cutoff of one over-asked lane by 1.
    pub fn press(&mut self, lane: u16) -> Result<(), Refusal>
        ensures { (result, place_of self.new) ≡ on_place L.Limit.family (λ family. press_call family lane) (place_of self.old) }
    {
        self.must_be_open()?;
        let at = self.lane_at(lane)?;
        if !self.over_asked(at) {
            return Err(Refusal::NotOverAsked);
        }
        self.book.raise(at);
        Ok(())
    }

    // Presses the first over-asked lane again and again, until the budget is used or no lane is over-asked; counts the presses.
    pub fn settle(&mut self, budget: u32) -> Result<Settled, Refusal>
        ensures { (result, place_of self.new) ≡ on_place L.Limit.family (λ family. settle_call family budget) (place_of self.old) }
    {
        self.must_be_open()?;
        for i in 0..budget {
            match self.first_over() {
                Some(l) => self.book.raise(l),
                None => return Ok(Settled {
                    presses: i,
                    over: false,
                }),
            }
        }
        let over = self.first_over().is_some();
        Ok(Settled {
            presses: budget,
            over,
        })
    }

    // Raises by 1 every lane that is over-asked before the sweep, and answers how many.
    pub fn sweep(&mut self) -> Result<u16, Refusal>
        ensures { (result, place_of self.new) ≡ on_place L.Limit.family (λ family. sweep_call family) (place_of self.old) }
    {
        self.must_be_open()?;
        let marks = self.over_marks();
        let mut raised = 0;
        for (l, over) in marks[..self.book.lane_count()].iter().enumerate() {
            if *over {
                self.book.raise(l);
                raised += 1;
            }
        }
        Ok(raised)
    }

    // Closes the round.
    pub fn post(&mut self) -> Result<(), Refusal>
        ensures { (result, place_of self.new) ≡ on_place L.Limit.family (λ family. post_call family) (place_of self.old) }
    {
        self.must_be_open()?;
        if self.first_over().is_some() {
            return Err(Refusal::OverAsked);
        }
        self.book.close();
        Ok(())
    }
}
