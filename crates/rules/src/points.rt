// The standing by points: in every lane more points are ahead.
ghost use Rattle.std.specs.Prelude.{◌≡◌, []};
ghost use Rattle.sheets.specs.Held.{model_of};
ghost use Rattle.sheets.specs.Read.{sheets_of, reading};
ghost use Rattle.rules.specs.Filled.{filling};
ghost use Rattle.rules.specs.Held.{points_held};
ghost use Rattle.rules.specs.Standings.{ahead_by_points};
ghost use Rattle.rules.specs.Views.{points_view};
ghost use Rattle.std.proofs.Common.{rules};

use super::columns::{ask, column_of};
use super::rows::entry;
use bounded::BoundedList;
use lines::Fault;
use matching::numbers::is_within;
use matching::policy::Standing;
use sheets::Sheets;

// How many lanes there are, and the points of each teacher.
#[derive(Clone, Copy)]
pub struct Points {
    lanes: u16,
    points: BoundedList<200>,
}

impl Points {
    // Points that know no lane and no teacher.
    pub fn new() -> Points
        ensures { points_held result ≡ record { lanes = 0; points = [] } }
    {
        Points {
            lanes: 0,
            points: BoundedList::new(),
        }
    }

    // Takes over lanes and points from the two sheets, by way of the desk. Refused sheets leave what was known before.
    pub fn fill(&mut self, desk: &mut Sheets, posts: &[u8], staff: &[u8]) -> Result<(), Fault>
        ensures value { (result, points_held self.new) ≡ filling points_view (sheets_of posts.now staff.now) (points_held self.old) }
        ensures desk { model_of desk.new ≡ (reading (sheets_of posts.now staff.now)).1 }
    {
        ask(desk, posts, staff)?;
        self.lanes = desk.lanes().len() as u16;
        self.points = column_of(desk, |teacher| teacher.points);
        Ok(())
    }
}

// More points are ahead; in an unknown lane nobody is.
impl Standing for Points {
    ghost ahead = { λ p. ahead_by_points (points_held p) };

    ghost oneway = { Prim.search rules };

    ghost between = { Prim.search rules };

    fn ahead_of(&self, lane: u16, a: u16, b: u16) -> bool {
        let points = self.points.as_slice();
        let more = entry(points, b) < entry(points, a);
        is_within(lane, usize::from(self.lanes)) && more
    }
}
