// Laws of the sheets.
ghost use Rattle.sheets.specs.Described.{Canonical};

// A model is read from the one pair of sheets that is written of it, and from no other; and within its ranges it is never too long for a sheet.
pub fn format_is_canonical()
    ensures { Canonical }
{}
