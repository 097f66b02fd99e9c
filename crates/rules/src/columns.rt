// Columns of the two sheets, as bounded lists.
ghost use Rattle.std.specs.Prelude.{◌≡◌, ℕ, map, take, Ok, Err, MatchResult};
ghost use Rattle.std.specs.Fn.{FnReturnsAt};
ghost use Rattle.bounded.specs.Listed.{listed};
ghost use Rattle.sheets.specs.Held.{model_of};
ghost use Rattle.sheets.specs.Model.{TeacherRecord, teacher_record};
ghost use Rattle.sheets.specs.Read.{sheets_of, reading};
ghost use Rattle.rules.specs.Views.{sizes_view};

use bounded::BoundedList;
use lines::Fault;
use sheets::{Sheets, Teacher};

// A number of each item, in their order, as far as there is room.
fn gather<T, F: Fn(&T) -> u16, const N: usize>(items: &[T], number: F) -> BoundedList<N>
    requires { F.IsAlwaysCallable number }
    ensures { (f : T → ℕ) → ((x : T) (r : ℕ) → FnReturnsAt F.Fn number x r → r ≡ f x) → listed result ≡ take N (map f items.now) }
{
    let mut out = BoundedList::new();
    for x in items {
        let _ = out.push(number(x));
    }
    out
}

// A number of each teacher on the desk.
pub(crate) fn column_of<F: Fn(&Teacher) -> u16>(desk: &Sheets, number: F) -> BoundedList<200>
    requires { F.IsAlwaysCallable number }
    ensures { (f : TeacherRecord → ℕ) → ((t : Teacher) (r : ℕ) → FnReturnsAt F.Fn number t r → r ≡ f (teacher_record t)) → listed result ≡ map f (model_of desk.now).teachers }
{
    gather(desk.teachers(), number)
}

// The sizes of the lanes on the desk.
pub(crate) fn sizes_of(desk: &Sheets) -> BoundedList<80>
    ensures { listed result ≡ sizes_view (model_of desk.now) }
{
    gather(desk.lanes(), |lane| lane.size)
}

// Reads the two sheets onto the desk, which then has what they describe.
// The five `fill`s that begin with it share no trait: each body is this call and a line for each table, and its clauses name its own view.
pub(crate) fn ask(desk: &mut Sheets, posts: &[u8], staff: &[u8]) -> Result<(), Fault>
    ensures value { MatchResult result (λ _. sheets_of posts.now staff.now ≡ Ok (model_of desk.new)) (λ e. sheets_of posts.now staff.now ≡ Err e) }
    ensures desk { model_of desk.new ≡ (reading (sheets_of posts.now staff.now)).1 }
{
    desk.read(posts, staff)
}
