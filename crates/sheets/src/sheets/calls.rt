// The calls of the sheets.
ghost use Rattle.std.specs.Prelude.{◌≡◌, IfOk, MatchResult};
ghost use Rattle.lines.specs.Faults.{seen};
ghost use Rattle.sheets.specs.Described.{Describes, Undescribed};
ghost use Rattle.sheets.specs.Held.{model_of};
ghost use Rattle.sheets.specs.Model.{blank, lane_record, teacher_record};
ghost use Rattle.sheets.specs.Read.{sheets_of, reading};
ghost use Rattle.sheets.specs.Tables.{tables_model, posts_sheet, staff_sheet, rewished};
ghost use Rattle.sheets.specs.Written.{writing};

use super::super::posts::read_posts;
use super::super::records::{Counts, Lanes, Teacher, Teachers};
use super::super::refusals::{WishRefusal, WriteRefusal};
use super::super::staff::read_staff;
use super::super::wishes::wishes_ok;
use super::super::writes::{PostsSheet, StaffSheet, write_whole};
use super::Sheets;
use bounded::{BoundedList, Table};
use lines::Fault;
use std::alloc::{AllocError, Global};

// Both sheets, into the tables; answers how many schools and subjects there are.
fn read_pair(
    lanes: &mut Lanes,
    teachers: &mut Teachers,
    posts: &[u8],
    staff: &[u8],
) -> Result<Counts, Fault>
    ensures { seen (λ p. tables_model p.schools p.subjects lanes.new.items.items teachers.new.items.items) result ≡ sheets_of posts.now staff.now }
{
    let counts = read_posts(lanes, posts)?;
    read_staff(teachers, staff, counts)?;
    Ok(counts)
}

impl Sheets {
    // Room for any pair of sheets: the only call that can want memory.
    pub fn reserve(heap: Global) -> Result<Sheets, AllocError>
        ensures { IfOk result (λ s. model_of s ≡ blank) }
    {
        let lanes = Table::reserve(heap)?;
        let teachers = Table::reserve(heap)?;
        Ok(Sheets {
            schools: 0,
            subjects: 0,
            lanes,
            teachers,
        })
    }

    // Forgets what was read.
    pub fn clear(&mut self)
        ensures { model_of self.new ≡ blank }
    {
        self.lanes.clear();
        self.teachers.clear();
        self.schools = 0;
        self.subjects = 0;
    }

    // Reads both sheets in the place of what was here. The first fault is the answer, and nothing is here then. What is read is what the two
    // sheets describe; and where they are refused, they describe nothing. The sheets stay two parameters, here and wherever they are handed on: in
    // a struct that borrows them each clause would say `pair.entry.posts.now` for `posts.now`.
    pub fn read(&mut self, posts: &[u8], staff: &[u8]) -> Result<(), Fault>
        ensures value { (result, model_of self.new) ≡ reading (sheets_of posts.now staff.now) }
        ensures described { MatchResult result (λ _. Describes posts.now staff.now (model_of self.new)) (λ _. Undescribed posts.now staff.now) }
    {
        match read_pair(&mut self.lanes, &mut self.teachers, posts, staff) {
            Ok(counts) => {
                self.schools = counts.schools;
                self.subjects = counts.subjects;
                Ok(())
            }
            Err(fault) => {
                self.lanes.clear();
                self.teachers.clear();
                self.schools = 0;
                self.subjects = 0;
                Err(fault)
            }
        }
    }

    // Writes the posts sheet into the buffer, and answers its length. Nothing is the sheet of nothing. A short buffer is left as it is.
    pub fn write_posts(&self, buf: &mut [u8]) -> Result<usize, WriteRefusal>
        ensures { (result, buf.new) ≡ writing (posts_sheet (model_of self.now)) buf.old }
    {
        if self.schools == 0 {
            return Ok(0);
        }
        write_whole(&PostsSheet(self), buf)
    }

    // Writes the staff sheet in the same way.
    pub fn write_staff(&self, buf: &mut [u8]) -> Result<usize, WriteRefusal>
        ensures { (result, buf.new) ≡ writing (staff_sheet (model_of self.now)) buf.old }
    {
        if self.schools == 0 {
            return Ok(0);
        }
        write_whole(&StaffSheet(self), buf)
    }

    // Gives the teacher at the index another wish list. Where there is no such teacher, or the list is not acceptable, nothing changes.
    pub fn rewish(&mut self, teacher: usize, wishes: &[u16]) -> Result<(), WishRefusal>
        ensures { (result, model_of self.new) ≡ rewished (model_of self.old) teacher wishes.now }
    {
        if teacher >= self.teachers.len() {
            return Err(WishRefusal::NoTeacher);
        }
        if !wishes_ok(self.schools, wishes) {
            return Err(WishRefusal::BadWishes);
        }
        let list = BoundedList::copied(wishes);
        self.teachers.change(teacher, |record| record.wish = list);
        Ok(())
    }
}
