// The calls of a table.
ghost use Rattle.std.specs.Prelude.{◌≡◌, ◌≤◌, ◌<◌, [], ◌∷◌, ◌++◌, length, slice_set, IfOk};
ghost use Rattle.std.specs.Fn.{FnOnceReturnsAtMut};
ghost use Rattle.bounded.specs.Changes.{Changes};

use super::Table;
use std::alloc::{AllocError, Global};

impl<T, const N: usize> Table<T, N> {
    // Room for N, with nothing there: the only call that can want memory.
    pub fn reserve(heap: Global) -> Result<Table<T, N>, AllocError>
        ensures { IfOk result (λ t. t.items.items ≡ []) }
    {
        let items = Vec::with_capacity(heap, N)?;
        Ok(Table { items })
    }

    // How many items there are.
    pub fn len(&self) -> usize
        ensures value { result ≡ length self.now.items.items }
        ensures within { result ≤ N }
    {
        self.items.len()
    }

    // The items, in order.
    pub fn as_slice(&self) -> &[T]
        ensures value { result.now ≡ self.now.items.items }
        ensures within { length result.now ≤ N }
    {
        self.items.as_slice()
    }

    // Puts an item in the place of the one that stands there.
    pub fn set(&mut self, at: usize, item: T)
    where
        T: Drop,
        requires { at < length self.old.items.items }
        ensures { self.new.items.items ≡ slice_set self.old.items.items at item }
    {
        self.items[at] = item;
    }

    // Lends the item at the place, to be changed where it stands.
    pub fn change<F: FnOnce(&mut T)>(&mut self, at: usize, change: F)
        requires inside { at < length self.old.items.items }
        requires callable { F.IsAlwaysCallable change }
        ensures { Changes (FnOnceReturnsAtMut F.FnOnce change) self.old.items.items at self.new.items.items }
    {
        change(&mut self.items[at]);
    }

    // Adds an item at the end, where fewer than N stand.
    pub fn push(&mut self, item: T)
        requires { length self.old.items.items < N }
        ensures { self.new.items.items ≡ self.old.items.items ++ item ∷ [] }
    {
        self.items.push_reserved(item);
    }

    // Drops the items and keeps the room.
    pub fn clear(&mut self)
    where
        T: Drop,
        ensures { self.new.items.items ≡ [] }
    {
        self.items.clear();
    }
}

#[cfg(test)]
mod tests {
    use super::Table;
    use std::test::Fail;

    #[test]
    fn room_is_had(rt: HostRuntime) -> Result<(), Fail> {
        let mut table: Table<u16, 3> = Table::reserve(rt.alloc())?;
        assert_eq!(rt; table.len(), 0);
        table.push(7);
        assert_eq!(rt; table.as_slice(), [7].as_slice());
        Ok(())
    }
}
