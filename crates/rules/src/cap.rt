// The newcomer cap over any limit, itself a limit: caps pile on caps.
ghost use Rattle.std.specs.Prelude.{◌≡◌, [], refl};
ghost use Rattle.bounded.specs.Listed.{listed};
ghost use Rattle.sheets.specs.Held.{model_of};
ghost use Rattle.sheets.specs.Read.{sheets_of, reading};
ghost use Rattle.rules.specs.Filled.{filling};
ghost use Rattle.rules.specs.Limits.{fits_capped, newcomers};
ghost use Rattle.rules.specs.Views.{homes_view};
ghost use Rattle.std.proofs.lemmas.Bool.{and_from, and_parts};
ghost use Rattle.rules.specs.Tallies.{newcomer, most_nobody, most_part};

use super::columns::{ask, column_of};
use super::rows::count_newcomers;
use bounded::BoundedList;
use lines::Fault;
use matching::policy::Limit;
use sheets::Sheets;

// The limit below, how many newcomers a lane takes at most, and the home of each teacher.
#[derive(Drop)]
pub struct Cap<L> {
    below: L,
    most: u16,
    homes: BoundedList<200>,
}

impl<L> Cap<L> {
    // A cap that knows no teacher yet.
    pub fn new(below: L, most: u16) -> Cap<L>
        ensures below { result.below ≡ below }
        ensures most { result.most ≡ most }
        ensures homes { listed result.homes ≡ [] }
    {
        let homes = BoundedList::new();
        Cap { below, most, homes }
    }

    // Takes over the homes from the two sheets, by way of the desk. Refused sheets leave what was known before. What is below stays as it is.
    pub fn fill(&mut self, desk: &mut Sheets, posts: &[u8], staff: &[u8]) -> Result<(), Fault>
        ensures value { (result, listed self.new.homes) ≡ filling homes_view (sheets_of posts.now staff.now) (listed self.old.homes) }
        ensures kept { (self.new.below ≡ self.old.below) × (self.new.most ≡ self.old.most) }
        ensures desk { model_of desk.new ≡ (reading (sheets_of posts.now staff.now)).1 }
    {
        ask(desk, posts, staff)?;
        self.homes = column_of(desk, |teacher| teacher.home);
        Ok(())
    }
}

// A group fits where it fits below and has no more newcomers than the cap takes.
impl<L: Limit> Limit for Cap<L> {
    ghost family = { λ c. fits_capped (L.Limit.family c.below) c.most (listed c.homes) };

    ghost empty = { unfold newcomers in λ x lane. and_from _ _ (L.Limit.empty x.below lane) (most_nobody (newcomer (listed x.homes)) (λ _. refl) 200 _) };

    ghost part = { unfold newcomers in
        λ x lane big small p e.
        let both = and_parts _ _ e in
        and_from _ _ (L.Limit.part x.below lane big small p both.0) (most_part (newcomer (listed x.homes)) (λ _. refl) 200 _ big small p both.1) };

    fn fits(&self, lane: u16, row: &[u8]) -> bool {
        let below = self.below.fits(lane, row);
        let few = count_newcomers(self.homes.as_slice(), row) <= u32::from(self.most);
        below && few
    }
}
