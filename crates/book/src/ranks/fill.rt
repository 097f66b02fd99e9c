// How the ranks are had and filled.
ghost use Rattle.std.specs.Prelude.{◌≡◌, ℕ, ◌+◌, ◌<◌, ◌≤◌, map, length, IfOk, slice_index, slice_set};
ghost use Rattle.matching.specs.Ranking.{rank_by};
ghost use Rattle.market.specs.Tables.{person, band_in, bands_of, tables_of};
ghost use Rattle.sheets.specs.Held.{model_of};
ghost use Rattle.sheets.specs.Model.{teacher_record};
ghost use Rattle.book.specs.Model.{entry_in};

use super::Ranks;
use market::bands_of;
use matching::policy::Standing;
use matching::ranks::fill_ranks;
use sheets::{Sheets, Teacher};
use std::alloc::{AllocError, Global};

impl Ranks {
    // Room for the ranks of any round, all 0.
    pub fn reserve(heap: Global) -> Result<Ranks, AllocError>
        ensures { IfOk result (λ x. (l t : ℕ) → entry_in x.table.items l t ≡ 0) }
    {
        let table = vec![in heap; [0u16; 200]; 80]?;
        Ok(Ranks { table })
    }

    // The entry of the teacher in the lane's row, both by their index; 0 outside the table.
    pub fn entry(&self, l: usize, t: usize) -> u16
        ensures { result ≡ entry_in self.now.table.items l t }
    {
        self.table
            .get(l)
            .and_then(|row| row.get(t))
            .copied()
            .unwrap_or(0)
    }

    // Puts a row of ranks in the place of that of the lane.
    fn set_lane(&mut self, l: usize, row: [u16; 200])
        requires inside { l < 80 }
        requires small { (t : ℕ) → slice_index row t ≤ 201 }
        ensures { self.new.table.items ≡ slice_set self.old.table.items l row }
    {
        self.table[l] = row;
    }
}

// The ranks of a lane's teachers, by their bands, the standing and their numbers; 0 for a teacher who is not licensed.
fn rank_row<S: Standing>(standing: &S, lane: u16, teachers: &[Teacher], subject: u16) -> [u16; 200]
    requires { length teachers.now ≤ 200 }
    ensures { (t : ℕ) → slice_index result t ≡ rank_by (S.Standing.ahead standing.now) lane (map (band_in subject) (map person (map teacher_record teachers.now))) t }
{
    let bands = bands_of(teachers, subject);
    // An array, as in `Book::offers`.
    let mut row = [0u16; 200];
    fill_ranks(standing, lane, &bands[..teachers.len()], &mut row);
    row
}

// Works out the ranks of every lane, by asking the standing.
pub fn rank_all<S: Standing>(standing: &S, sheets: &Sheets, ranks: &mut Ranks)
    ensures { (l t : ℕ) → l < length (model_of sheets.now).posts.lanes → entry_in ranks.new.table.items l t ≡ rank_by (S.Standing.ahead standing.now) (l + 1) (bands_of (tables_of (model_of sheets.now)) l) t }
{
    for (l, lane) in sheets.lanes().iter().enumerate() {
        let row = rank_row(standing, (l + 1) as u16, sheets.teachers(), lane.subject);
        ranks.set_lane(l, row);
    }
}
