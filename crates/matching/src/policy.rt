// The two policies of a round. Lanes and teachers go by their numbers, from 1.
ghost use Rattle.std.specs.Prelude.{◌≡◌, ℕ, Bool, true, false, ◌||◌};
ghost use Rattle.matching.specs.Groups.{Group, nobody, told, Part};

// Who is ahead of whom at each lane: a strict weak order, in which teachers may be level.
pub trait Standing {
    // lane, teacher, teacher: the first is ahead of the second
    ghost ahead: { Self → ℕ → ℕ → ℕ → Bool };

    // Is teacher a ahead of teacher b at the lane?
    fn ahead_of(&self, lane: u16, a: u16, b: u16) -> bool
        ensures { result ≡ ahead self.now lane a b };

    // no two teachers are each ahead of the other
    ghost oneway: { (x : Self) (lane a b : ℕ) → ahead x lane a b ≡ true → ahead x lane b a ≡ false };

    // where a is ahead of b, any third c is behind a or ahead of b; so level teachers are all alike
    ghost between: { (x : Self) (lane a b c : ℕ) → ahead x lane a b ≡ true → (ahead x lane a c || ahead x lane c b) ≡ true };
}

// Which groups of teachers each lane can take together: a general upper bound.
pub trait Limit {
    // lane, group: the group is feasible
    ghost family: { Self → ℕ → Group → Bool };

    // Can the lane take the group that the row tells, one byte a teacher in number order, 0 for out?
    fn fits(&self, lane: u16, row: &[u8]) -> bool
        ensures { result ≡ family self.now lane (told row.now) };

    // the empty group is feasible
    ghost empty: { (x : Self) (lane : ℕ) → family x lane nobody ≡ true };

    // every part of a feasible group is feasible
    ghost part: { (x : Self) (lane : ℕ) (g h : Group) → Part h g → family x lane g ≡ true → family x lane h ≡ true };
}
