// The calls of a bounded list.
ghost use Rattle.std.specs.Prelude.{◌≡◌, ◌≤◌, [], length, take};
ghost use Rattle.bounded.specs.Listed.{listed, pushed};

use super::{BoundedList, Full};

impl<const N: usize> BoundedList<N> {
    // The empty list.
    pub fn new() -> BoundedList<N>
        ensures { listed result ≡ [] }
    {
        BoundedList {
            items: [0; N],
            len: 0,
        }
    }

    // Adds a number at the end; a full list stays as it is.
    pub fn push(&mut self, x: u16) -> Result<(), Full>
        ensures { (result, listed self.new) ≡ pushed N (listed self.old) x }
    {
        let at = self.len;
        if at < N {
            self.items[at] = x;
            self.len = at + 1;
            return Ok(());
        }
        Err(Full)
    }

    // The first numbers of a slice, as many as there is room for.
    pub fn copied(items: &[u16]) -> BoundedList<N>
        ensures { listed result ≡ take N items.now }
    {
        let mut out = BoundedList::new();
        for x in items {
            let _ = out.push(*x);
        }
        out
    }

    // How many numbers the list has.
    pub fn len(&self) -> usize
        ensures value { result ≡ length (listed self.now) }
        ensures within { result ≤ N }
    {
        self.as_slice().len()
    }

    // The numbers, in order.
    pub fn as_slice(&self) -> &[u16]
        ensures value { result.now ≡ listed self.now }
        ensures within { length result.now ≤ N }
    {
        &self.items[..self.len]
    }
}
