// The calls of the standing by list.
ghost use Rattle.std.specs.Prelude.{◌≡◌, ◌≤◌, [], map, length, IfOk};
ghost use Rattle.bounded.specs.Listed.{listed};
ghost use Rattle.matching.specs.Picks.{place_of};
ghost use Rattle.sheets.specs.Held.{model_of};
ghost use Rattle.sheets.specs.Model.{lane_record};
ghost use Rattle.sheets.specs.Read.{sheets_of, reading};
ghost use Rattle.rules.specs.Filled.{filling};
ghost use Rattle.rules.specs.Held.{lists_held};
ghost use Rattle.rules.specs.Standings.{ahead_by_list, place_on};
ghost use Rattle.rules.specs.Views.{entry as entry_of, lists_view};
ghost use Rattle.std.proofs.Common.{rules, arith};

use super::super::columns::ask;
use super::super::rows::numbered;
use super::{LaneLists, Lists};
use bounded::{BoundedList, Table};
use lines::Fault;
use matching::numbers::is_within;
use matching::policy::Standing;
use sheets::{Lane, Sheets};
use std::alloc::{AllocError, Global};

// The lists of these lanes, in the place of those in the table.
fn copy_lists(lists: &mut LaneLists, lanes: &[Lane])
    requires { length lanes.now ≤ 80 }
    ensures { map listed lists.new.items.items ≡ map (λ l. l.list) (map lane_record lanes.now) }
{
    lists.clear();
    for lane in lanes {
        lists.push(lane.list);
    }
}

// The list of a lane; none for an unknown lane.
fn list_of(lists: &[BoundedList<20>], lane: u16) -> &[u16]
    ensures { result.now ≡ entry_of (map listed lists.now) lane [] }
{
    numbered(lists, lane).map_or(&[], |list| list.as_slice())
}

// Where the list names the teacher, from 0; its length where it does not, and no Option: who is not named comes behind all who are.
fn place_in(list: &[u16], teacher: u16) -> usize
    ensures { result ≡ place_of teacher list.now }
{
    list.iter()
        .position(|named| *named == teacher)
        .unwrap_or(list.len())
}

impl Lists {
    // Room for the lists of any pair of sheets: the only call that can want memory.
    pub fn reserve(heap: Global) -> Result<Lists, AllocError>
        ensures { IfOk result (λ l. lists_held l ≡ record { teachers = 0; lists = [] }) }
    {
        let lists = Table::reserve(heap)?;
        Ok(Lists { teachers: 0, lists })
    }

    // What the desk has takes the place of what was known.
    fn take(&mut self, desk: &Sheets)
        ensures { lists_held self.new ≡ lists_view (model_of desk.now) }
    {
        self.teachers = desk.teachers().len() as u16;
        copy_lists(&mut self.lists, desk.lanes());
    }

    // Takes over teachers and lists from the two sheets, by way of the desk. Refused sheets leave what was known before.
    pub fn fill(&mut self, desk: &mut Sheets, posts: &[u8], staff: &[u8]) -> Result<(), Fault>
        ensures value { (result, lists_held self.new) ≡ filling lists_view (sheets_of posts.now staff.now) (lists_held self.old) }
        ensures desk { model_of desk.new ≡ (reading (sheets_of posts.now staff.now)).1 }
    {
        ask(desk, posts, staff)?;
        self.take(desk);
        Ok(())
    }

    // Where the lane's list names the teacher; its length where it does not, or where there is no such teacher.
    fn place(&self, lane: u16, teacher: u16) -> usize
        ensures { result ≡ place_on (lists_held self.now) lane teacher }
    {
        let list = list_of(self.lists.as_slice(), lane);
        if is_within(teacher, usize::from(self.teachers)) {
            place_in(list, teacher)
        } else {
            list.len()
        }
    }
}

// Who is named is ahead of who is named later or not at all.
impl Standing for Lists {
    ghost ahead = { λ l. ahead_by_list (lists_held l) };

    ghost oneway = { first_of (Prim.search rules, Prim.grind (arith, Self.row.coded.inj)) };

    ghost between = { first_of (Prim.search rules, Prim.grind (arith, Self.row.coded.inj)) };

    fn ahead_of(&self, lane: u16, a: u16, b: u16) -> bool {
        self.place(lane, a) < self.place(lane, b)
    }
}
