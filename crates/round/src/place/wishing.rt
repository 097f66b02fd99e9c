// A new wish list.
ghost use Rattle.std.specs.Prelude.{◌≡◌};
ghost use Rattle.round.specs.Calls.{wish_call};
ghost use Rattle.round.specs.Held.{place_of, on_place};

use super::Place;
use crate::answers::Refusal;
use matching::policy::{Limit, Standing};

#[tactic(auto, unfolding(matching::specs::Log::after))]
impl<S: Standing, L: Limit> Place<S, L> {
    // Replaces one teacher's wish list, and sets every cutoff to 1.
    pub fn wish(&mut self, teacher: u16, wishes: &[u16]) -> Result<(), Refusal>
        ensures { (result, place_of self.new) ≡ on_place L.Limit.family (λ family. wish_call family teacher wishes.now) (place_of self.old) }
    {
        self.must_be_open()?;
        let at = self.teacher_at(teacher)?;
        self.book.rewish(at, wishes)?;
        Ok(())
    }
}
