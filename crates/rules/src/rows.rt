// What a row of marks tells of a group, one byte a teacher in number order; and what a table says of a number, from 1.
ghost use Rattle.std.specs.Prelude.{◌≡◌, ℕ, ◌-◌, ◌<◌, ◌==◌, cond, if◌then◌else◌, nat_lt, slice_get, slice_index_or, None, option_copied};
ghost use Rattle.matching.specs.Count.{sum_to};
ghost use Rattle.matching.specs.Groups.{told};
ghost use Rattle.rules.specs.Limits.{members, cost_of, newcomers};
ghost use Rattle.rules.specs.Views.{entry as entry_of};

use lines::number_at;

// What stands at n, counted from 1, if the table goes so far.
pub(crate) fn numbered<T>(xs: &[T], n: u16) -> Option<&T>
    ensures { option_copied result ≡ (if nat_lt 0 n then slice_get xs.now (n - 1) else None) }
{
    xs.get(usize::from(n.checked_sub(1)?))
}

// The number that stands at n, counted from 1; 0 where there is none, and no Option: an unknown teacher has 0 points, and an unknown lane no seat.
pub(crate) fn entry(ns: &[u16], n: u16) -> u16
    ensures { result ≡ entry_of ns.now n 0 }
{
    numbered(ns, n).copied().unwrap_or(0)
}

// Is the teacher of index i a newcomer, with home 0? An unknown teacher is none.
fn is_newcomer(homes: &[u16], i: usize) -> bool
    ensures { result ≡ (slice_index_or homes.now i 1 == 0) }
{
    homes.get(i).is_some_and(|home| *home == 0)
}

// What the members of the row's group count together, where worth says what the teacher of an index counts.
fn tally<F: Fn(usize) -> u16>(row: &[u8], worth: F) -> u32
    requires { F.IsAlwaysCallable worth }
    ensures { (w : ℕ → ℕ) → ((i r : ℕ) → i < 200 → F.post worth i r → r ≡ w i) → result ≡ sum_to (λ t. cond (told row.now t) (w t) 0) 200 }
{
    let mut sum = 0;
    for (i, mark) in row[..row.len().min(200)].iter().enumerate() {
        if *mark != 0 {
            sum += u32::from(worth(i));
        }
    }
    sum
}

// How many members the row's group has.
pub(crate) fn count_members(row: &[u8]) -> u32
    ensures { result ≡ members (told row.now) }
{
    tally(row, |_| 1)
}

// What the members of the row's group cost together.
pub(crate) fn weigh(costs: &[u16], row: &[u8]) -> u32
    ensures { result ≡ cost_of costs.now (told row.now) }
{
    tally(row, |i| number_at(costs, i))
}

// How many members of the row's group are newcomers.
pub(crate) fn count_newcomers(homes: &[u16], row: &[u8]) -> u32
    ensures { result ≡ newcomers homes.now (told row.now) }
{
    tally(row, |i| u16::from(is_newcomer(homes, i)))
}
