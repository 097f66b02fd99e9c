// The limit by seats: at most as many teachers as the lane's size.
ghost use Rattle.std.specs.Prelude.{◌≡◌, [], refl};
ghost use Rattle.sheets.specs.Held.{model_of};
ghost use Rattle.sheets.specs.Read.{sheets_of, reading};
ghost use Rattle.rules.specs.Filled.{filling};
ghost use Rattle.rules.specs.Held.{seats_held};
ghost use Rattle.rules.specs.Limits.{fits_seats, members};
ghost use Rattle.rules.specs.Views.{sizes_view};
ghost use Rattle.rules.specs.Tallies.{heads, most_nobody, most_part};

use super::columns::{ask, sizes_of};
use super::rows::{count_members, entry};
use bounded::BoundedList;
use lines::Fault;
use matching::policy::Limit;
use sheets::Sheets;

// The size of each lane.
#[derive(Clone, Copy)]
pub struct Seats {
    sizes: BoundedList<80>,
}

impl Seats {
    // Seats that know no lane.
    pub fn new() -> Seats
        ensures { seats_held result ≡ [] }
    {
        Seats {
            sizes: BoundedList::new(),
        }
    }

    // Takes over the sizes from the two sheets, by way of the desk. Refused sheets leave what was known before.
    pub fn fill(&mut self, desk: &mut Sheets, posts: &[u8], staff: &[u8]) -> Result<(), Fault>
        ensures value { (result, seats_held self.new) ≡ filling sizes_view (sheets_of posts.now staff.now) (seats_held self.old) }
        ensures desk { model_of desk.new ≡ (reading (sheets_of posts.now staff.now)).1 }
    {
        ask(desk, posts, staff)?;
        self.sizes = sizes_of(desk);
        Ok(())
    }
}

// A group fits where it has no more members than the lane has seats.
impl Limit for Seats {
    ghost family = { λ s. fits_seats (seats_held s) };

    ghost empty = { unfold members in λ x lane. most_nobody heads (λ _. refl) 200 _ };

    ghost part = { unfold members in λ x lane g h p e. most_part heads (λ _. refl) 200 _ g h p e };

    fn fits(&self, lane: u16, row: &[u8]) -> bool {
        count_members(row) <= u32::from(entry(self.sizes.as_slice(), lane))
    }
}
