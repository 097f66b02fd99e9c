// The two sheets and their records as texts, and a text written whole into a lent buffer.
ghost use Rattle.std.specs.Prelude.{◌≡◌};
ghost use Rattle.sheets.specs.Held.{model_of};
ghost use Rattle.sheets.specs.Model.{lane_record, teacher_record};
ghost use Rattle.sheets.specs.Written.{lane_bytes, teacher_bytes, posts_bytes, staff_bytes, writing};

use super::records::{Lane, Teacher};
use super::refusals::WriteRefusal;
use super::sheets::Sheets;
use lines::{Key, put_line};
use text::{Page, Text};

// Writes the text into the buffer, and answers its length. A short buffer is left as it is.
pub fn write_whole<T: Text>(text: &T, buf: &mut [u8]) -> Result<usize, WriteRefusal>
    ensures { (result, buf.new) ≡ writing (T.bytes text.now) buf.old }
{
    let mut measure = Page::new(&mut [], 0);
    text.put_on(&mut measure);
    let size = measure.at();
    if size > buf.len() {
        return Err(WriteRefusal::BufferTooShort);
    }
    let mut page = Page::new(buf, 0);
    text.put_on(&mut page);
    Ok(size)
}

impl Text for Lane {
    ghost bytes = { λ l. lane_bytes (lane_record l) };

    fn put_on(&self, page: &mut Page) {
        put_line(page, Key::Lane, &[self.school, self.subject, self.size]);
        put_line(page, Key::List, self.list.as_slice());
    }
}

impl Text for Teacher {
    ghost bytes = { λ t. teacher_bytes (teacher_record t) };

    fn put_on(&self, page: &mut Page) {
        put_line(page, Key::Home, &[self.home]);
        put_line(page, Key::Main, &[self.main]);
        put_line(page, Key::Also, self.also.as_slice());
        put_line(page, Key::Wish, self.wish.as_slice());
        put_line(page, Key::Points, &[self.points]);
        put_line(page, Key::Cost, &[self.cost]);
    }
}

// The posts sheet of the sheets.
#[derive(Drop)]
pub(crate) struct PostsSheet<'a>(pub(crate) &'a Sheets);

impl Text for PostsSheet<'_> {
    ghost bytes = { λ s. posts_bytes (model_of s.0.now).posts };

    fn put_on(&self, page: &mut Page) {
        let lanes = self.0.lanes();
        put_line(page, Key::Schools, &[self.0.schools()]);
        put_line(page, Key::Subjects, &[self.0.subjects()]);
        put_line(page, Key::Lanes, &[lanes.len() as u16]);
        page.put_each(lanes);
    }
}

// The staff sheet of the sheets.
#[derive(Drop)]
pub(crate) struct StaffSheet<'a>(pub(crate) &'a Sheets);

impl Text for StaffSheet<'_> {
    ghost bytes = { λ s. staff_bytes (model_of s.0.now).teachers };

    fn put_on(&self, page: &mut Page) {
        let teachers = self.0.teachers();
        put_line(page, Key::Teachers, &[teachers.len() as u16]);
        page.put_each(teachers);
    }
}
