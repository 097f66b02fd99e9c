// Wish lists.
ghost use Rattle.std.specs.Prelude.{◌≡◌};
ghost use Rattle.sheets.specs.Ranges.{wish_ok};

use lines::{all_in_range, distinct};

// Are there at most 12 wishes, each a school of the round, none twice?
pub fn wishes_ok(schools: u16, wishes: &[u16]) -> bool
    ensures { result ≡ wish_ok schools wishes.now }
{
    wishes.len() <= 12 && all_in_range(wishes, 1, schools) && distinct(wishes)
}
