// The numbers of a line: their ranges and their order.
ghost use Rattle.std.specs.Prelude.{◌≡◌, ◌≤◌, not, ◌&&◌, IfOk, slice_index};
ghost use Rattle.bounded.specs.Listed.{listed};
ghost use Rattle.lines.specs.Faults.{seen};
ghost use Rattle.lines.specs.Entries.{all_within, has, distinct as distinct_of, above, single as single_of, ranged as ranged_of, unrepeated as unrepeated_of, licences as licences_of};

use super::faults::{Fault, FaultKind, Spot};
use super::keys::Key;
use super::lines::field;
use bounded::BoundedList;

// Is every number from low to high?
pub fn all_in_range(ns: &[u16], low: u16, high: u16) -> bool
    ensures { result ≡ all_within low high ns.now }
{
    ns.iter().all(|n| (low..=high).contains(n))
}

// Is x one of the numbers?
pub fn holds(ns: &[u16], x: u16) -> bool
    ensures { result ≡ has x ns.now }
{
    ns.contains(&x)
}

// Does no number come twice?
pub fn distinct(ns: &[u16]) -> bool
    ensures { result ≡ distinct_of ns.now }
{
    for (i, n) in ns.iter().enumerate() {
        if holds(&ns[i + 1..], *n) {
            return false;
        }
    }
    true
}

// Is each number above the one before it, and the first above 0?
fn rising(ns: &[u16]) -> bool
    ensures { result ≡ above 0 ns.now }
{
    let mut last = 0;
    for n in ns {
        if *n <= last {
            return false;
        }
        last = *n;
    }
    true
}

// The number at the place, 0 past the end.
pub fn number_at(ns: &[u16], i: usize) -> u16
    ensures { result ≡ slice_index ns.now i }
{
    ns.get(i).copied().unwrap_or(0)
}

// A line with one number in its range, and the place behind it.
pub fn single(sheet: &[u8], at: Spot, key: Key, low: u16, high: u16) -> Result<(u16, usize), Fault>
    ensures value { seen (λ p. (p.0, p.1)) result ≡ single_of key low high sheet.now at }
    ensures within { IfOk result (λ p. p.0 ≤ high) }
{
    let (ns, behind) = field::<1>(sheet, at, key, 1)?;
    let n = number_at(ns.as_slice(), 0);
    if n < low || n > high {
        return Err(at.fault(FaultKind::OutOfRange));
    }
    Ok((n, behind))
}

// A line with up to N numbers, each from 1 to high, and the place behind it.
fn ranged<const N: usize>(
    sheet: &[u8],
    at: Spot,
    key: Key,
    high: u16,
) -> Result<(BoundedList<N>, usize), Fault>
    ensures { seen (λ p. (listed p.0, p.1)) result ≡ ranged_of key N high sheet.now at }
{
    let (ns, behind) = field::<N>(sheet, at, key, 0)?;
    if !all_in_range(ns.as_slice(), 1, high) {
        return Err(at.fault(FaultKind::OutOfRange));
    }
    Ok((ns, behind))
}

// The same without repeats.
pub fn unrepeated<const N: usize>(
    sheet: &[u8],
    at: Spot,
    key: Key,
    high: u16,
) -> Result<(BoundedList<N>, usize), Fault>
    ensures { seen (λ p. (listed p.0, p.1)) result ≡ unrepeated_of key N high sheet.now at }
{
    let (ns, behind) = ranged::<N>(sheet, at, key, high)?;
    if !distinct(ns.as_slice()) {
        return Err(at.fault(FaultKind::Disordered));
    }
    Ok((ns, behind))
}

// The further licences of a teacher with this main subject, and the place behind their line.
pub fn licences(
    sheet: &[u8],
    at: Spot,
    main: u16,
    high: u16,
) -> Result<(BoundedList<9>, usize), Fault>
    ensures { seen (λ p. (listed p.0, p.1)) result ≡ licences_of main high sheet.now at }
{
    let (ns, behind) = ranged::<9>(sheet, at, Key::Also, high)?;
    if !(rising(ns.as_slice()) && !holds(ns.as_slice(), main)) {
        return Err(at.fault(FaultKind::Disordered));
    }
    Ok((ns, behind))
}
