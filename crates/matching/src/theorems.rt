// The theorems, each as the contract of a function that is named after it. The functions do nothing: that they are proved is what they are for.
ghost use Rattle.matching.specs.Promise.{EveryLineKeepsThePromise, BestAndFairWithoutBands, CutoffsStayBounded, SettleEnds, SixteenThousandSuffice, PostedIsCalm};
ghost use Rattle.matching.specs.Order.{PressesStayLowest, PressesEndAlike};
ghost use Rattle.matching.specs.Wishes.{OneWishNow};
ghost use Rattle.matching.specs.Ranks.{RanksAreOneToN};

// After every call of every log each teacher's offer is at least as good as in any fair assignment; the offers are fair once no lane is over-asked; and where
// there is room for the incumbents, each has an offer.
pub fn every_line_keeps_the_promise()
    ensures { EveryLineKeepsThePromise }
{}

// Which wish list a teacher has now is told by the calls, and is only one.
pub fn one_wish_now()
    ensures { OneWishNow }
{}

// What the promise says of wishes, of the best offers and of fairness needs no law on incumbents and bands.
pub fn best_and_fair_without_bands()
    ensures { BestAndFairWithoutBands }
{}

// Every cutoff is at least 1 and at most 1 more than the lane's licensed teachers are; what settle's presses amount to.
pub fn cutoffs_stay_bounded()
    ensures { CutoffsStayBounded }
{}

// A settle with a budget of lanes times teachers leaves no lane over-asked.
pub fn settle_ends()
    ensures { SettleEnds }
{}

// For 80 lanes and 200 teachers that budget is 16000.
pub fn sixteen_thousand_suffice()
    ensures { SixteenThousandSuffice }
{}

// A round that is ended has no lane over-asked.
pub fn posted_is_calm()
    ensures { PostedIsCalm }
{}

// Presses of over-asked lanes, in any order, never pass the lowest cutoffs above the start with no lane over-asked.
pub fn presses_stay_lowest()
    ensures { PressesStayLowest }
{}

// So the settled cutoffs do not depend on the order of the presses.
pub fn presses_end_alike()
    ensures { PressesEndAlike }
{}

// The ranks of a lane are the numbers from 1 to the number of its licensed teachers, each once, in the priority order.
pub fn ranks_are_one_to_n()
    ensures { RanksAreOneToN }
{}
