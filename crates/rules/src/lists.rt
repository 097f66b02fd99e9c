// The standing by list: who is named earlier on the lane's list is ahead.
use bounded::{BoundedList, Table};

// The lists of a sheet's lanes, with room for as many as it may have.
pub(crate) type LaneLists = Table<BoundedList<20>, 80>;

// How many teachers there are, and the list of each lane.
#[derive(Drop)]
pub struct Lists {
    teachers: u16,
    lists: LaneLists,
}

pub mod calls;
