// Places in the sheets.
ghost use Rattle.std.specs.Prelude.{◌≡◌};
ghost use Rattle.sheets.specs.Spots.{spot_in};

use lines::{Sheet, Spot};

// Line `line` of the sheet, which begins at the place.
pub(crate) fn at(sheet: Sheet, line: usize, place: usize) -> Spot
    ensures { result ≡ spot_in sheet line place }
{
    Spot {
        sheet: sheet.number(),
        line,
        place,
    }
}
