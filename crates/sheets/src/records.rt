// What the sheets tell: counts, a lane and a teacher.
use bounded::{BoundedList, Table};

// How many schools and how many subjects a round has.
#[derive(Clone, Copy)]
pub(crate) struct Counts {
    pub(crate) schools: u16,
    pub(crate) subjects: u16,
}

// One subject at one school. The list names teachers for the standing that goes by lists; what the size bounds is the limit's matter.
#[derive(Clone, Copy)]
pub struct Lane {
    pub school: u16,
    pub subject: u16,
    pub size: u16,
    pub list: BoundedList<20>,
}

// Home is the school of the present post, or 0: no Option, since the sheet has it so, and each reader and writer would turn it there and back.
#[derive(Clone, Copy)]
pub struct Teacher {
    pub home: u16,
    pub main: u16,
    pub also: BoundedList<9>,
    pub wish: BoundedList<12>,
    pub points: u16,
    pub cost: u16,
}

// The lanes of a posts sheet, with room for as many as it may have.
pub(crate) type Lanes = Table<Lane, 80>;

// The teachers of a staff sheet, with room for as many as it may have.
pub(crate) type Teachers = Table<Teacher, 200>;
