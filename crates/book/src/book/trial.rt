// The askers of a lane, at its cutoff or at one that is tried.
ghost use Rattle.std.specs.Prelude.{◌≡◌, ℕ, suc, ◌<◌, ◌≤◌, ◌↔◌, IsOk, length, slice_index, slice_set};
ghost use Rattle.matching.specs.Count.{bit};
ghost use Rattle.matching.specs.Log.{within};
ghost use Rattle.book.specs.Askers.{licensed_in, asking, trial_left};
ghost use Rattle.book.specs.declared.book.trial.TrialRefusal.TheVariants.{BadRow as BadRowTried};
ghost use Rattle.book.specs.Held.{book_model};
ghost use Rattle.book.specs.Reach.{stops_at, comes_to, reach_in, reaches as reaches_at};
ghost use Rattle.book.specs.Result.{row as row_of};

use super::{Book, Cutoffs};
use std::error::Error;
use std::fmt;

// The row has not one byte a teacher.
#[derive(Clone, Copy, Debug, PartialEq, Eq)]
pub struct BadRow;

impl fmt::Display for BadRow {
    fn fmt<W: fmt::Write>(&self, f: &mut fmt::Formatter<W>) -> fmt::Result {
        write!(f, "the row has not one byte a teacher")
    }
}

impl Error for BadRow {}

// Why a trial is refused.
#[derive(Clone, Copy, Debug, PartialEq, Eq)]
pub enum TrialRefusal {
    // no such lane
    NoLane,
    // a cutoff of 0, or more than one above the lane's licensed teachers
    BadCutoff,
    // the row has not one byte a teacher
    BadRow,
}

impl fmt::Display for TrialRefusal {
    fn fmt<W: fmt::Write>(&self, f: &mut fmt::Formatter<W>) -> fmt::Result {
        match self {
            TrialRefusal::NoLane => write!(f, "there is no such lane"),
            TrialRefusal::BadCutoff => write!(
                f,
                "the cutoff is 0, or more than one above the lane's licensed teachers"
            ),
            TrialRefusal::BadRow => write!(f, "{BadRow}"),
        }
    }
}

impl Error for TrialRefusal {}

impl From<BadRow> for TrialRefusal {
    ghost from_gives = { λ _ refusal. refusal ≡ BadRowTried };

    fn from(_row: BadRow) -> Self {
        Self::BadRow
    }
}

// The list of cutoffs with one of them at a number that is tried. When it ends, the old number stands there again.
pub struct Tried<'a> {
    cutoffs: &'a mut Cutoffs,
    at: usize,
    old: u16,
}

impl Drop for Tried<'_> {
    fn drop(self)
        ensures { self.exit.0.now.items.items ≡ slice_set self.entry.cutoffs.now.items.items self.entry.at self.entry.old }
    {
        let at = self.at;
        let old = self.old;
        if at < self.cutoffs.len() {
            self.cutoffs.set(at, old);
        }
        let Tried {
            cutoffs: _,
            at: _,
            old: _,
        } = self;
    }
}

impl Tried<'_> {
    // The number that is tried.
    fn cutoff(&self) -> u16
        requires { self.now.at < length self.now.cutoffs.now.items.items }
        ensures { result ≡ slice_index self.entry.now.cutoffs.now.items.items self.entry.now.at }
    {
        self.cutoffs.as_slice()[self.at]
    }
}

// May the cutoff be tried in a lane with so many licensed teachers?
fn may_try(tried: u16, licensed: usize) -> bool
    requires { licensed ≤ 200 }
    ensures { result ≡ within tried (suc licensed) }
{
    tried > 0 && usize::from(tried) <= licensed + 1
}

// 1 for a teacher with this reach who asks at the cutoff, else 0.
fn mark_at(cutoff: u16, reach: u16) -> u8
    ensures { result ≡ bit (reaches_at cutoff reach) }
{
    u8::from(reach > 0 && cutoff <= reach)
}

// Has the row one byte a teacher?
fn check_row(row: &[u8], teachers: usize) -> Result<(), BadRow>
    ensures { IsOk result ↔ (length row.now ≡ teachers) }
{
    if row.len() == teachers {
        Ok(())
    } else {
        Err(BadRow)
    }
}

// Writes who asks at the cutoff: one byte a teacher.
fn write_marks(cutoff: u16, reaches: &[u16; 200], row: &mut [u8])
    requires { length row.old ≤ 200 }
    ensures { row.new ≡ row_of (λ t. bit (reaches_at cutoff (slice_index reaches.now t))) (length row.old) }
{
    for (t, mark) in row.iter_mut().enumerate() {
        *mark = mark_at(cutoff, reaches[t]);
    }
}

impl Book {
    // Is it the lane that is looked for, or one that the teacher clears?
    fn stops_at(&self, l: usize, t: usize, k: usize) -> bool
        ensures { result ≡ stops_at (book_model self.now) l t k }
    {
        k == l || self.clears(t, k)
    }

    // Is the lane on the teacher's pick list, with no lane before it that is cleared?
    fn comes_to(&self, l: usize, t: usize) -> bool
        ensures { result ≡ comes_to (book_model self.now) l t }
    {
        // A loop that ends at the lane: with the library's `find` a row of 200 askers took half as long again.
        let list = self.pick_list(t);
        for k in list {
            if self.stops_at(l, t, *k as usize) {
                return *k as usize == l;
            }
        }
        false
    }

    // The highest cutoff of the lane at which the teacher would ask for it; 0 if there is none, and no Option, as ranks have it.
    fn reach(&self, l: usize, t: usize) -> u16
        ensures { result ≡ reach_in (book_model self.now) l t }
    {
        if self.comes_to(l, t) {
            self.rank(l, t)
        } else {
            0
        }
    }

    // The reach of all teachers.
    fn reaches(&self, l: usize) -> [u16; 200]
        ensures long { length result ≡ 200 }
        ensures each { (t : ℕ) → slice_index result t ≡ reach_in (book_model self.now) l t }
    {
        // An array, filled as in `Book::offers`.
        let mut reaches = [0; 200];
        for (t, reach) in reaches[..self.teacher_count()].iter_mut().enumerate() {
            *reach = self.reach(l, t);
        }
        reaches
    }

    // How many teachers are licensed for the lane.
    fn licensed(&self, l: usize) -> usize
        ensures value { result ≡ licensed_in (book_model self.now) l }
        ensures few { result ≤ 200 }
    {
        (0..self.teacher_count())
            .filter(|t| self.rank(l, *t) > 0)
            .count()
    }

    // Writes the askers of the lane into the row: one byte a teacher, 1 for an asker. A row that has not one byte a teacher is left as it is.
    pub fn askers(&self, l: usize, row: &mut [u8]) -> Result<(), BadRow>
        ensures { (result, row.new) ≡ asking (book_model self.now) l row.old }
    {
        check_row(row, self.teacher_count())?;
        write_marks(self.cutoff(l), &self.reaches(l), row);
        Ok(())
    }

    // Puts the lane's cutoff at the tried number, and writes the askers that the lane then has into the row. On every way out the old cutoff
    // stands again.
    pub fn trial(&mut self, l: usize, tried: u16, row: &mut [u8]) -> Result<(), TrialRefusal>
        ensures { ((result, row.new), book_model self.new) ≡ trial_left (book_model self.old) l tried row.old }
    {
        if l >= self.cutoffs.len() {
            return Err(TrialRefusal::NoLane);
        }
        let reaches = self.reaches(l);
        let licensed = self.licensed(l);
        let teachers = self.teacher_count();
        let old = self.cutoffs.as_slice()[l];
        self.cutoffs.set(l, tried);
        let guard = Tried {
            cutoffs: &mut self.cutoffs,
            at: l,
            old,
        };
        if !may_try(tried, licensed) {
            return Err(TrialRefusal::BadCutoff);
        }
        check_row(row, teachers)?;
        write_marks(guard.cutoff(), &reaches, row);
        Ok(())
    }
}
