// A list with room for N, had before: adding to it wants no memory.
ghost use Rattle.std.specs.Prelude.{◌≤◌, length, vec_capacity};

// At most N items, in memory that has room for N.
#[derive(Drop)]
pub struct Table<T, const N: usize> {
    items: Vec<T>,
    ghost room: { N ≤ vec_capacity items },
    ghost within: { length items.items ≤ N },
}

pub mod calls;
