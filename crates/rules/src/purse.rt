// The limit by purse: the members' costs add up to at most the lane's size.
ghost use Rattle.std.specs.Prelude.{◌≡◌, [], refl};
ghost use Rattle.sheets.specs.Held.{model_of};
ghost use Rattle.sheets.specs.Read.{sheets_of, reading};
ghost use Rattle.rules.specs.Filled.{filling};
ghost use Rattle.rules.specs.Held.{purse_held};
ghost use Rattle.rules.specs.Limits.{fits_purse, members, cost_of};
ghost use Rattle.rules.specs.Views.{purse_view};
ghost use Rattle.bounded.specs.Listed.{listed};
ghost use Rattle.rules.specs.Tallies.{heads, worth, most_nobody, none_nobody, most_part, none_part};
ghost use Rattle.rules.specs.PurseLimitLemmas.{choice_true, choice_part};

use super::columns::{ask, column_of, sizes_of};
use super::rows::{count_members, numbered, weigh};
use bounded::BoundedList;
use lines::Fault;
use matching::policy::Limit;
use sheets::Sheets;

// The size of each lane and the cost of each teacher.
#[derive(Clone, Copy)]
pub struct Purse {
    sizes: BoundedList<80>,
    costs: BoundedList<200>,
}

impl Purse {
    // A purse that knows no lane and no teacher.
    pub fn new() -> Purse
        ensures { purse_held result ≡ record { sizes = []; costs = [] } }
    {
        Purse {
            sizes: BoundedList::new(),
            costs: BoundedList::new(),
        }
    }

    // Takes over sizes and costs from the two sheets, by way of the desk. Refused sheets leave what was known before.
    pub fn fill(&mut self, desk: &mut Sheets, posts: &[u8], staff: &[u8]) -> Result<(), Fault>
        ensures value { (result, purse_held self.new) ≡ filling purse_view (sheets_of posts.now staff.now) (purse_held self.old) }
        ensures desk { model_of desk.new ≡ (reading (sheets_of posts.now staff.now)).1 }
    {
        ask(desk, posts, staff)?;
        self.sizes = sizes_of(desk);
        self.costs = column_of(desk, |teacher| teacher.cost);
        Ok(())
    }
}

// A group fits where the lane can pay for it; in an unknown lane only the empty group does.
impl Limit for Purse {
    ghost family = { λ p. fits_purse (purse_held p) };

    ghost empty = { unfold members cost_of in λ x lane. choice_true _ _ _ (most_nobody (worth (listed x.costs)) (λ _. refl) 200 _) (none_nobody heads (λ _. refl) 200) };

    ghost part = { unfold members cost_of in λ x lane g h p e. choice_part _ _ _ _ _ (most_part (worth (listed x.costs)) (λ _. refl) 200 _ g h p) (none_part heads (λ _. refl) 200 g h p) e };

    fn fits(&self, lane: u16, row: &[u8]) -> bool {
        match numbered(self.sizes.as_slice(), lane) {
            Some(size) => weigh(self.costs.as_slice(), row) <= u32::from(*size),
            None => count_members(row) == 0,
        }
    }
}
