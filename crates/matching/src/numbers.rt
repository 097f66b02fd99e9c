// Numbers of teachers and lanes, from 1.
ghost use Rattle.std.specs.Prelude.{◌≡◌};
ghost use Rattle.matching.specs.Log.{within};

// Is n one of the numbers from 1 to the last?
pub fn is_within(n: u16, last: usize) -> bool
    ensures { result ≡ within n last }
{
    (1..=last).contains(&(n as usize))
}
