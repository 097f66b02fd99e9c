// The line that a fault is about.
ghost use Rattle.std.specs.Prelude.{◌≡◌, take, drop};
ghost use Rattle.text.specs.Number.{before};
ghost use Rattle.sheets.specs.Handed.{chosen as chosen_of, text_at};

use lines::Sheet;
use text::position_of;

// The sheet with the number, which stays a number, since each has an answer.
fn chosen<'a>(posts: &'a [u8], staff: &'a [u8], sheet: u8) -> &'a [u8]
    ensures { result.now ≡ chosen_of sheet posts.now staff.now }
{
    match Sheet::from(sheet) {
        Sheet::Posts => posts,
        Sheet::Staff => staff,
    }
}

// What stands from the place on.
fn rest_from(s: &[u8], place: usize) -> &[u8]
    ensures { result.now ≡ drop place s.now }
{
    &s[place.min(s.len())..]
}

// The bytes before the first line end.
fn first_line(s: &[u8]) -> &[u8]
    ensures { result.now ≡ take (before 10 s.now) s.now }
{
    &s[..position_of(s, b'\n')]
}

// The line at the place, as a part of the sheet in which it stands: from the place to before the next byte 10 or the end. A place past the
// end gives the empty part at the end, and a sheet number other than 2 means posts: it stays a number, since each has an answer.
pub fn line_text<'a>(posts: &'a [u8], staff: &'a [u8], sheet: u8, place: usize) -> &'a [u8]
    ensures { result.now ≡ text_at (chosen_of sheet posts.now staff.now) place }
{
    first_line(rest_from(chosen(posts, staff, sheet), place))
}
