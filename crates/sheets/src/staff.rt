// The staff sheet, read into a table that has room for it.
ghost use Rattle.std.specs.Prelude.{◌≡◌, ◌^◌, ◌<◌, ◌≤◌, map};
ghost use Rattle.lines.specs.Faults.{seen};
ghost use Rattle.sheets.specs.Model.{teacher_record};
ghost use Rattle.sheets.specs.Staff.{teacher as teacher_of, teachers as teachers_of, staff_of};

use super::records::{Counts, Teacher, Teachers};
use super::spots::at;
use lines::Sheet::Staff;
use lines::{Fault, FaultKind, Key, licences, single, unrepeated};

// The six lines of a teacher, and the place behind them.
fn read_teacher(
    bytes: &[u8],
    counts: Counts,
    line: usize,
    place: usize,
) -> Result<(Teacher, usize), Fault>
    requires { line < 2 ^ 32 }
    ensures { seen (λ p. (teacher_record p.0, p.1)) result ≡ teacher_of counts.schools counts.subjects bytes.now line place }
{
    let schools = counts.schools;
    let subjects = counts.subjects;
    let (home, place) = single(bytes, at(Staff, line, place), Key::Home, 0, schools)?;
    let (main, place) = single(bytes, at(Staff, line + 1, place), Key::Main, 1, subjects)?;
    let (also, place) = licences(bytes, at(Staff, line + 2, place), main, subjects)?;
    let (wish, place) = unrepeated::<12>(bytes, at(Staff, line + 3, place), Key::Wish, schools)?;
    let (points, place) = single(bytes, at(Staff, line + 4, place), Key::Points, 0, 65535)?;
    let (cost, place) = single(bytes, at(Staff, line + 5, place), Key::Cost, 0, 100)?;
    let teacher = Teacher {
        home,
        main,
        also,
        wish,
        points,
        cost,
    };
    Ok((teacher, place))
}

// The teachers, in the place of those in the table, and the place behind them.
fn fill_teachers(
    all: &mut Teachers,
    bytes: &[u8],
    counts: Counts,
    count: u16,
    start: usize,
) -> Result<usize, Fault>
    requires { count ≤ 200 }
    ensures { seen (λ p. (map teacher_record all.new.items.items, p)) result ≡ teachers_of count counts.schools counts.subjects bytes.now 2 start }
{
    all.clear();
    let mut place = start;
    let mut line = 2;
    for _i in 0..count {
        let (teacher, next) = read_teacher(bytes, counts, line, place)?;
        all.push(teacher);
        place = next;
        line += 6;
    }
    Ok(place)
}

// The staff sheet, into the table.
pub(crate) fn read_staff(all: &mut Teachers, bytes: &[u8], counts: Counts) -> Result<(), Fault>
    ensures { seen (λ _. map teacher_record all.new.items.items) result ≡ staff_of counts.schools counts.subjects bytes.now }
{
    if bytes.len() > 30000 {
        return Err(at(Staff, 0, 0).fault(FaultKind::TooLong));
    }
    let (count, place) = single(bytes, at(Staff, 1, 0), Key::Teachers, 1, 200)?;
    let place = fill_teachers(all, bytes, counts, count, place)?;
    if place != bytes.len() {
        let behind = at(Staff, 2 + 6 * count as usize, place);
        return Err(behind.fault(FaultKind::Trailing));
    }
    Ok(())
}
