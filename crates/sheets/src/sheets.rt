// Both sheets, in tables that have room for every pair of sheets.
ghost use Rattle.std.specs.Prelude.{◌≡◌, true};
ghost use Rattle.sheets.specs.Tables.{tables_model, kept as kept_of};

use super::records::{Lanes, Teachers};

// Blank at first and after a fault, else what the last pair of sheets describes. Blank sheets have 0 schools, which no pair of sheets has: so no Option
// says it again.
#[derive(Drop)]
pub struct Sheets {
    schools: u16,
    subjects: u16,
    lanes: Lanes,
    teachers: Teachers,
    ghost kept: { kept_of (tables_model schools subjects lanes.items.items teachers.items.items) ≡ true },
}

pub mod asked;
pub mod calls;
