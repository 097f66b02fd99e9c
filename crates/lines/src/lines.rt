// One line of a sheet.
ghost use Rattle.std.specs.Prelude.{◌≡◌, ◌+◌, ◌<◌, ◌≤◌, length, IfOk};
ghost use Rattle.bounded.specs.Listed.{listed};
ghost use Rattle.lines.specs.Faults.{seen};
ghost use Rattle.lines.specs.Lines.{shape, shaped, value_of, place_of, line_at, line_of, field as field_of};

use super::faults::{Fault, FaultKind, Spot};
use super::keys::{Key, value_of};
use bounded::BoundedList;
use text::{position_of, read_list};

// A line by its kind. The cases have the same two fields and stay cases, since a line is read as a head line, a lane line or a teacher line. The
// value stays a part of the sheet, and its place there is kept with it.
#[derive(Clone, Copy)]
pub enum Line<'a> {
    Head { value: &'a [u8], place: usize },
    Lane { value: &'a [u8], place: usize },
    Teacher { value: &'a [u8], place: usize },
}

impl<'a> Line<'a> {
    // The line with this key: a match that sorts the keys into three kinds, and chooses nothing to run.
    fn with_key(key: Key, value: &'a [u8], place: usize) -> Line<'a>
        ensures { shape result ≡ shaped key value.now place }
    {
        match key {
            Key::Schools | Key::Subjects | Key::Lanes | Key::Teachers => Line::Head {
                value,
                place,
            },
            Key::Lane | Key::List => Line::Lane { value, place },
            Key::Home | Key::Main | Key::Also | Key::Wish | Key::Points | Key::Cost =>
                Line::Teacher { value, place },
        }
    }

    fn value(self) -> &'a [u8]
        ensures { result.now ≡ value_of (shape self.entry) }
    {
        match self {
            Line::Head { value, .. } | Line::Lane { value, .. } | Line::Teacher { value, .. } =>
                value,
        }
    }

    fn place(self) -> usize
        ensures { result ≡ place_of (shape self.entry) }
    {
        match self {
            Line::Head { place, .. } | Line::Lane { place, .. } | Line::Teacher { place, .. } =>
                place,
        }
    }
}

// The bytes of the line that begins at the spot, without its end.
fn line_bytes<'a>(sheet: &'a [u8], at: Spot) -> Result<&'a [u8], Fault>
    ensures value { seen (λ x. x.now) result ≡ line_at sheet.now at }
    ensures within { IfOk result (λ l. at.place + length l.now < length sheet.now) }
{
    let Some(rest) = sheet.get(at.place..) else {
        return Err(at.fault(FaultKind::Unended));
    };
    let k = position_of(rest, b'\n');
    if k < rest.len() {
        Ok(&rest[0..k])
    } else {
        Err(at.fault(FaultKind::Unended))
    }
}

// The line with the due key at the spot.
fn read_line<'a>(sheet: &'a [u8], at: Spot, key: Key) -> Result<Line<'a>, Fault>
    ensures value { seen shape result ≡ line_of key sheet.now at }
    ensures within { IfOk result (λ x. place_of (shape x) + length (value_of (shape x)) < length sheet.now) }
{
    let bytes = line_bytes(sheet, at)?;
    let Some(value) = value_of(key, bytes) else {
        return Err(at.fault(FaultKind::WrongKey));
    };
    Ok(Line::with_key(key, value, at.place + key.text().len()))
}

// The numbers of the line with the due key, and the place behind the line.
pub fn field<const N: usize>(
    sheet: &[u8],
    at: Spot,
    key: Key,
    least: usize,
) -> Result<(BoundedList<N>, usize), Fault>
    ensures { seen (λ p. (listed p.0, p.1)) result ≡ field_of key least N sheet.now at }
{
    let line = read_line(sheet, at, key)?;
    let value = line.value();
    let Some(ns) = read_list::<N>(value) else {
        return Err(at.fault(FaultKind::Malformed));
    };
    if ns.len() < least {
        return Err(at.fault(FaultKind::Malformed));
    }
    Ok((ns, line.place() + value.len() + 1))
}
