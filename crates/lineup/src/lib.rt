// The ranks of a lane by a line of its licensed teachers: the same ranks as those that are counted, with fewer questions to the standing.
#![tactic(auto)]

pub mod lineup;
