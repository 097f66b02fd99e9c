// The ranks of every teacher in every lane.
ghost use Rattle.std.specs.Prelude.{◌≡◌, ℕ, ◌≤◌, vec_len};
ghost use Rattle.book.specs.Model.{entry_in};

// A row of 200 entries for each of 80 lanes; 0 where a teacher is not licensed. No rank is above 201, since there are at most 200 teachers.
#[derive(Drop)]
pub struct Ranks {
    table: Vec<[u16; 200]>,
    ghost full: { vec_len table ≡ 80 },
    ghost small: { (l t : ℕ) → entry_in table.items l t ≤ 201 },
}

pub mod fill;
