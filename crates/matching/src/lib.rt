// The theory that a posting round rests on: matching markets, cutoffs, fair assignments and logs of calls; what a standing and a limit are; and ranks counted
// from bands and a standing.
#![tactic(auto)]

pub mod numbers;
pub mod policy;
pub mod ranks;
pub mod theorems;
