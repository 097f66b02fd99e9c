// Questions of the sheets.
ghost use Rattle.std.specs.Prelude.{◌≡◌, ◌≤◌, map, length};
ghost use Rattle.sheets.specs.Held.{model_of};
ghost use Rattle.sheets.specs.Model.{lane_record, teacher_record};

use super::super::records::{Lane, Teacher};
use super::Sheets;

impl Sheets {
    // How many schools there are; 0 before anything is read.
    pub fn schools(&self) -> u16
        ensures { result ≡ (model_of self.now).posts.schools }
    {
        self.schools
    }

    // How many subjects there are.
    pub fn subjects(&self) -> u16
        ensures { result ≡ (model_of self.now).posts.subjects }
    {
        self.subjects
    }

    // The lanes, in the order of the sheet.
    pub fn lanes(&self) -> &[Lane]
        ensures value { map lane_record result.now ≡ (model_of self.now).posts.lanes }
        ensures few { length result.now ≤ 80 }
    {
        self.lanes.as_slice()
    }

    // The teachers, in the order of the sheet.
    pub fn teachers(&self) -> &[Teacher]
        ensures value { map teacher_record result.now ≡ (model_of self.now).teachers }
        ensures few { length result.now ≤ 200 }
    {
        self.teachers.as_slice()
    }
}
