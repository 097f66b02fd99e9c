// Rounds worked by hand, as a theorem. The function does nothing: that it is proved is what it is for.
#![tactic(auto)]

ghost use Rattle.worked.specs.Worked.{WorkedRounds};

// For the rounds of specs/Worked.antt the definitions of sheets, standings, limits and calls give the answers, cutoffs and offers that are stated there.
pub fn worked_rounds()
    ensures { WorkedRounds }
{}
