// Pairs of sheets, and what is filled from them.
use crate::stop::Result;
use rules::{Cap, Points, Purse, Seats};
use sheets::Sheets;

// A posts sheet and a staff sheet.
#[derive(Clone, Copy)]
pub struct Pair {
    pub posts: &'static [u8],
    pub staff: &'static [u8],
}

impl Pair {
    pub fn points(&self, desk: &mut Sheets) -> Result<Points> {
        let mut points = Points::new();
        points.fill(desk, self.posts, self.staff)?;
        Ok(points)
    }

    pub fn seats(&self, desk: &mut Sheets) -> Result<Seats> {
        let mut seats = Seats::new();
        seats.fill(desk, self.posts, self.staff)?;
        Ok(seats)
    }

    pub fn purse(&self, desk: &mut Sheets) -> Result<Purse> {
        let mut purse = Purse::new();
        purse.fill(desk, self.posts, self.staff)?;
        Ok(purse)
    }

    // A cap over the limit.
    pub fn cap<L: Drop>(&self, desk: &mut Sheets, below: L, most: u16) -> Result<Cap<L>> {
        let mut cap = Cap::new(below, most);
        cap.fill(desk, self.posts, self.staff)?;
        Ok(cap)
    }
}
