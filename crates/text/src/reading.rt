// Numbers and comma lists, read.
ghost use Rattle.std.specs.Prelude.{◌≡◌, ◌≤◌, length};
ghost use Rattle.std.specs.Option.{option_map};
ghost use Rattle.bounded.specs.Listed.{listed};
ghost use Rattle.text.specs.Commas.{numbers, capped};
ghost use Rattle.text.specs.Number.{number, before};

use bounded::BoundedList;

// How many bytes stand before the first `b`; all of them where there is none.
pub fn position_of(bytes: &[u8], b: u8) -> usize
    ensures value { result ≡ before b bytes.now }
    ensures within { result ≤ length bytes.now }
{
    bytes.iter().position(|c| *c == b).unwrap_or(bytes.len())
}

// The number that the bytes write: 1 to 5 digits, no leading zero but 0 itself, at most 65535. The library's `parse` takes a plus sign and
// leading zeros, so the digits are read here.
pub fn read_number(piece: &[u8]) -> Option<u16>
    ensures { result ≡ number piece.now }
{
    if piece.is_empty() || piece.len() > 5 {
        return None;
    }
    if piece.len() > 1 && piece[0] == b'0' {
        return None;
    }
    let mut n = 0u32;
    for b in piece {
        if !b.is_ascii_digit() {
            return None;
        }
        n = n * 10 + u32::from(*b - b'0');
    }
    if n > 65535 {
        return None;
    }
    Some(n as u16)
}

// The numbers of a value, parted by commas; none where one is not well-formed or there are more than N.
pub fn read_list<const N: usize>(value: &[u8]) -> Option<BoundedList<N>>
    ensures { option_map listed result ≡ capped N (numbers value.now) }
{
    let mut out = BoundedList::new();
    if value.is_empty() {
        return Some(out);
    }
    let mut rest = value;
    loop {
        let k = position_of(rest, b',');
        let n = read_number(&rest[0..k])?;
        out.push(n).ok()?;
        if k == rest.len() {
            return Some(out);
        }
        rest = &rest[k + 1..];
    }
}
