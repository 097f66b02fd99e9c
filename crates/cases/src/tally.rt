// Many readings at once: how many were sound, and how many were refused under each number.
use crate::sample::{BOTH, SOUND};
use crate::shown::Reader;
use lines::{Fault, Sheet};
use std::io;

// The counts of refusals stand at the refusal's number, and none has number 0. The sums of the lines and places of the faults stand for where they were.
#[derive(Default, Drop)]
struct Tally {
    sound: u32,
    refused: [u32; 9],
    lines: usize,
    places: usize,
}

impl Tally {
    fn note_fault(&mut self, fault: Fault) {
        if let Some(count) = self.refused.get_mut(fault.kind.number() as usize) {
            *count = count.saturating_add(1);
        }
        self.lines = self.lines.saturating_add(fault.line);
        self.places = self.places.saturating_add(fault.place);
    }

    fn note(&mut self, answer: Result<(), Fault>) {
        match answer {
            Ok(()) => self.sound = self.sound.saturating_add(1),
            Err(fault) => self.note_fault(fault),
        }
    }

    // Every byte at the place of the sheet.
    fn note_bytes(&mut self, reader: &mut Reader, sheet: Sheet, bytes: &mut [u8], at: usize) {
        let Some(old) = bytes.get(at).copied() else {
            return;
        };
        for b in 0..=u8::MAX {
            bytes[at] = b;
            self.note(reader.read(SOUND.with(sheet, bytes)));
        }
        bytes[at] = old;
    }

    fn show(&self, rt: &HostRuntime) -> io::Result<()> {
        let sound = self.sound;
        print!(rt; "{sound} sound; refused")?;
        for (number, count) in self.refused.iter().enumerate().skip(1) {
            print!(rt; " {count} by {number},")?;
        }
        let lines = self.lines;
        let places = self.places;
        println!(rt; " lines {lines}, places {places}")
    }
}

// Every byte at each of the first places of the sheet.
fn show_bytes(reader: &mut Reader, sheet: Sheet, places: usize, told: &str) -> io::Result<()> {
    let rt = reader.rt;
    let mut bytes = SOUND.sheet(sheet).to_vec(rt.alloc())?;
    let mut tally = Tally::default();
    // The whole sheet is read while the byte at the place changes, so no iterator may hold its bytes.
    for at in 0..places {
        tally.note_bytes(reader, sheet, &mut bytes, at);
    }
    print!(rt; "every byte {told} of {sheet}: ")?;
    tally.show(rt)
}

fn show_fronts(reader: &mut Reader, sheet: Sheet) -> io::Result<()> {
    let bytes = SOUND.sheet(sheet);
    let mut tally = Tally::default();
    // n is how long the front is.
    for n in 0..bytes.len() {
        tally.note(reader.read(SOUND.with(sheet, &bytes[..n])));
    }
    print!(reader.rt; "every shorter front of {sheet}: ")?;
    tally.show(reader.rt)
}

pub(crate) fn show_tallies(reader: &mut Reader) -> io::Result<()> {
    for sheet in BOTH {
        show_bytes(reader, sheet, 1, "as the first")?;
        show_bytes(reader, sheet, SOUND.sheet(sheet).len(), "at every place")?;
        show_fronts(reader, sheet)?;
    }
    Ok(())
}
