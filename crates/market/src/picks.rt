// Pick lists and wish lists.
ghost use Rattle.std.specs.Prelude.{◌≡◌, Bool, ◌++◌, take};
ghost use Rattle.std.specs.Fn.{FnReturnsAt};
ghost use Rattle.bounded.specs.Listed.{listed};
ghost use Rattle.sheets.specs.Held.{model_of};
ghost use Rattle.sheets.specs.Model.{LaneRecord, lane_record, teacher_record};
ghost use Rattle.market.specs.Choosing.{Answers, lanes_of, person_of, passing, gives};
ghost use Rattle.market.specs.Lists.{gather};
ghost use Rattle.market.specs.Tables.{person, main_at, also_at, unnamed, pick_of};

use bounded::BoundedList;
use lines::holds;
use sheets::{Lane, Sheets, Teacher};

// A teacher of a round, with a wish list.
#[derive(Clone, Copy)]
struct Chooser<'a> {
    sheets: &'a Sheets,
    teacher: &'a Teacher,
    wishes: &'a [u16],
}

impl Chooser<'_> {
    // Is the lane the school's, and of the main subject?
    fn is_main(&self, school: u16, lane: &Lane) -> bool
        ensures { result ≡ main_at (person_of self.now) school (lane_record lane.now) }
    {
        lane.school == school && lane.subject == self.teacher.main
    }

    // Is the lane the school's, and of a further licence?
    fn is_further(&self, school: u16, lane: &Lane) -> bool
        ensures { result ≡ also_at (person_of self.now) school (lane_record lane.now) }
    {
        lane.school == school
            && lane.subject != self.teacher.main
            && holds(self.teacher.also.as_slice(), lane.subject)
    }

    // Adds the lanes that pass, in declaration order.
    fn add_lanes<F: Fn(&Lane) -> bool>(&self, out: &mut BoundedList<80>, passes: F)
        requires { F.IsAlwaysCallable passes }
        ensures { (test : LaneRecord → Bool) → Answers (FnReturnsAt F.Fn passes) test → listed out.new ≡ take 80 (listed out.old ++ passing test (lanes_of self.now)) }
    {
        let lanes = self.sheets.lanes();
        for (l, lane) in lanes.iter().enumerate() {
            if passes(lane) {
                let _ = out.push(l as u16);
            }
        }
    }

    // Adds the school's lanes for which the teacher is licensed.
    fn add_school(&self, out: &mut BoundedList<80>, school: u16)
        ensures { listed out.new ≡ take 80 (listed out.old ++ gives self.now school) }
    {
        self.add_lanes(out, |lane| self.is_main(school, lane));
        self.add_lanes(out, |lane| self.is_further(school, lane));
    }

    // Adds the lanes of the wished schools, in the order of the wishes.
    #[tactic(auto, using(crate::proofs::Appending::wished_start, crate::proofs::Appending::wished_more))]
    fn add_wished(&self, out: &mut BoundedList<80>)
        ensures { listed out.new ≡ take 80 (listed out.old ++ gather (gives self.now) self.now.wishes.now) }
    {
        for school in self.wishes {
            self.add_school(out, *school);
        }
    }

    // Adds the lanes of the schools that are not wished, in declaration order.
    fn add_unnamed(&self, out: &mut BoundedList<80>)
        ensures { listed out.new ≡ take 80 (listed out.old ++ gather (gives self.now) (unnamed (model_of self.now.sheets.now).posts.schools self.now.wishes.now)) }
    {
        for school in 1..=self.sheets.schools() {
            if !holds(self.wishes, school) {
                self.add_school(out, school);
            }
        }
    }
}

// The pick list that the wishes give the teacher, each lane by its index. It is whole wherever it has at most 80 lanes, and so for every
// acceptable wish list.
#[tactic(auto, using(crate::proofs::Appending::picks_of_newcomer, crate::proofs::Appending::picks_of_incumbent))]
pub fn pick_list(sheets: &Sheets, p: &Teacher, wishes: &[u16]) -> BoundedList<80>
    ensures { listed result ≡ take 80 (pick_of (model_of sheets.now).posts (person (teacher_record p.now)) wishes.now) }
{
    let chooser = Chooser {
        sheets,
        teacher: p,
        wishes,
    };
    let mut out = BoundedList::new();
    chooser.add_wished(&mut out);
    if p.home != 0 {
        chooser.add_unnamed(&mut out);
    }
    out
}
