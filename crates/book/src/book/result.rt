// The result sheet.
ghost use Rattle.std.specs.Prelude.{◌≡◌, ◌<◌, IfSome};
ghost use Rattle.bounded.specs.Listed.{listed};
ghost use Rattle.sheets.specs.Written.{writing};
ghost use Rattle.book.specs.Held.{book_model};
ghost use Rattle.book.specs.Result.{seat as seat_of, raises as raises_of, seats as seats_of, result_bytes, result_sheet};

use super::Book;
use bounded::BoundedList;
use sheets::{WriteRefusal, write_whole};
use text::{Page, Text};

// The numbers of a result sheet.
#[derive(Drop)]
struct ResultSheet<'a> {
    raises: u16,
    cuts: &'a [u16],
    seats: &'a [u16],
}

impl Text for ResultSheet<'_> {
    ghost bytes = { λ s. result_bytes s.raises s.cuts.now s.seats.now };

    fn put_on(&self, page: &mut Page) {
        page.put_line(b"raises=", &[self.raises]);
        page.put_line(b"cut=", self.cuts);
        page.put_line(b"seat=", self.seats);
    }
}

// The number of the lane that is offered, from 1; 0 for none, as the result sheet has it.
fn seat(offer: Option<u16>) -> u16
    requires { IfSome offer (λ l. l < 80) }
    ensures { result ≡ seat_of offer }
{
    match offer {
        Some(l) => l + 1,
        None => 0,
    }
}

impl Book {
    // The seats of all teachers.
    fn seats(&self) -> BoundedList<200>
        ensures { listed result ≡ seats_of (book_model self.now) }
    {
        let mut seats = BoundedList::new();
        for t in 0..self.teacher_count() {
            let _ = seats.push(seat(self.offer(t)));
        }
        seats
    }

    // The raises of the round: over all lanes, the cutoff less 1.
    pub fn raises(&self) -> u16
        ensures { result ≡ raises_of (book_model self.now) }
    {
        self.cutoffs
            .as_slice()
            .iter()
            .map(|cutoff| cutoff.saturating_sub(1))
            .sum()
    }

    // Writes the result sheet into the buffer, and answers its length. Nothing is the sheet of nothing. A short buffer is left as it is.
    pub fn write_result(&self, buf: &mut [u8]) -> Result<usize, WriteRefusal>
        ensures { (result, buf.new) ≡ writing (result_sheet (book_model self.now)) buf.old }
    {
        if self.sheets.schools() == 0 {
            return Ok(0);
        }
        let seats = self.seats();
        let sheet = ResultSheet {
            raises: self.raises(),
            cuts: self.cutoffs.as_slice(),
            seats: seats.as_slice(),
        };
        write_whole(&sheet, buf)
    }
}
