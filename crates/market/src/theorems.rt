// The theorems of this layer, each as the contract of a function that is named after it.
ghost use Rattle.market.specs.Described.{SheetsDescribeALawfulMarket, PickListsAreShort};

// Under every lawful standing and limit the market of a sound pair of sheets keeps the laws that the theory asks for.
pub fn sheets_describe_a_lawful_market()
    ensures { SheetsDescribeALawfulMarket }
{}

// A pick list is never longer than the lanes are many.
pub fn pick_lists_are_short()
    ensures { PickListsAreShort }
{}
