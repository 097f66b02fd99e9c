// A list of at most N numbers, as a plain value.
ghost use Rattle.std.specs.Prelude.{◌≡◌, ◌≤◌, length};

use std::error::Error;
use std::fmt;

// The first `len` places of `items` are the list; the rest is spare. It stays an array with a length: a `Vec` would want memory while sheets are read, and
// the kit's `ArrayVec` cannot be copied, as lanes, teachers, points and purses are.
#[derive(Clone, Copy)]
pub struct BoundedList<const N: usize> {
    items: [u16; N],
    len: usize,
    ghost within: { (len ≤ N) × (length items ≡ N) },
}

// A list has no room for another number.
#[derive(Clone, Copy, Debug, PartialEq, Eq)]
pub struct Full;

impl fmt::Display for Full {
    fn fmt<W: fmt::Write>(&self, f: &mut fmt::Formatter<W>) -> fmt::Result {
        f.write_str("the list is full")
    }
}

impl Error for Full {}

pub mod calls;
