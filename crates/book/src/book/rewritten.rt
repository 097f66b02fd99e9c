// The two sheets of a round, written back.
ghost use Rattle.std.specs.Prelude.{◌≡◌};
ghost use Rattle.sheets.specs.Written.{writing};
ghost use Rattle.book.specs.Held.{book_model};
ghost use Rattle.book.specs.Rewritten.{posts_in, staff_in};

use super::Book;
use sheets::WriteRefusal;

impl Book {
    // Writes the posts sheet into the buffer, and answers its length. Nothing is the sheet of nothing. A short buffer is left as it is.
    pub fn write_posts(&self, buf: &mut [u8]) -> Result<usize, WriteRefusal>
        ensures { (result, buf.new) ≡ writing (posts_in (book_model self.now)) buf.old }
    {
        self.sheets.write_posts(buf)
    }

    // Writes the staff sheet, with the wishes as they now are, in the same way.
    pub fn write_staff(&self, buf: &mut [u8]) -> Result<usize, WriteRefusal>
        ensures { (result, buf.new) ≡ writing (staff_in (book_model self.now)) buf.old }
    {
        self.sheets.write_staff(buf)
    }
}
