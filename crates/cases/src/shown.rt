// What reading answers and what is written then, shown on the rest of a line.
use crate::sample::Pair;
use lines::{Fault, Sheet};
use sheets::{Sheets, WriteRefusal, line_text};
use std::io;
use std::io::Write;

// Reads one pair of sheets after another into the same tables, with room to write each sheet back.
#[derive(Drop)]
pub(crate) struct Reader<'a> {
    pub(crate) rt: &'a HostRuntime,
    pub(crate) sheets: Sheets,
    room: Vec<u8>,
}

// Writes this sheet of the tables.
pub(crate) fn write_sheet(
    sheets: &Sheets,
    sheet: Sheet,
    buf: &mut [u8],
) -> Result<usize, WriteRefusal> {
    match sheet {
        Sheet::Posts => sheets.write_posts(buf),
        Sheet::Staff => sheets.write_staff(buf),
    }
}

// Is nothing there to write?
fn is_blank(sheets: &Sheets) -> bool {
    sheets.write_posts(&mut []) == Ok(0) && sheets.write_staff(&mut []) == Ok(0)
}

impl<'a> Reader<'a> {
    pub(crate) fn reserve(rt: &'a HostRuntime) -> io::Result<Reader<'a>> {
        let sheets = Sheets::reserve(rt.alloc())?;
        let room = vec![in rt.alloc(); 0u8; 30000]?;
        Ok(Reader { rt, sheets, room })
    }

    // Reads the pair, and shows the answer. A sound pair is written back and compared; after a fault nothing is left.
    pub(crate) fn show(&mut self, pair: Pair) -> io::Result<()> {
        match self.read(pair) {
            Ok(()) => self.show_written(pair),
            Err(fault) => self.show_fault(pair, fault),
        }
    }

    // Reads the pair, and shows nothing.
    pub(crate) fn read(&mut self, pair: Pair) -> Result<(), Fault> {
        self.sheets.read(pair.posts, pair.staff)
    }

    // Are the tables written back as this sheet of the pair?
    fn is_written(&mut self, pair: Pair, sheet: Sheet) -> bool {
        let answer = write_sheet(&self.sheets, sheet, &mut self.room);
        answer.is_ok_and(|n| self.room.get(..n) == Some(pair.sheet(sheet)))
    }

    // Tells whether both sheets of the pair were written back.
    fn show_written(&mut self, pair: Pair) -> io::Result<()> {
        let posts_back = self.is_written(pair, Sheet::Posts);
        let staff_back = self.is_written(pair, Sheet::Staff);
        if posts_back && staff_back {
            let m = pair.posts.len();
            let n = pair.staff.len();
            println!(self.rt; "read, and written back: {m} and {n} bytes")
        } else {
            println!(self.rt; "read, and NOT written back")
        }
    }

    // Tells the fault, and whether it left the tables blank.
    fn show_fault(&self, pair: Pair, fault: Fault) -> io::Result<()> {
        let rt = self.rt;
        let number = fault.kind.number();
        let sheet = fault.sheet;
        let place = fault.place;
        print!(rt;
            "refused {number}, sheet {sheet}, line {}, place {place}, found by the {}, text [",
            fault.line, fault.layer
        )?;
        let mut out = rt.stdout();
        out.write_all(line_text(pair.posts, pair.staff, sheet, place))?;
        if is_blank(&self.sheets) {
            println!(rt; "], then blank")
        } else {
            println!(rt; "], then NOT blank")
        }
    }
}
