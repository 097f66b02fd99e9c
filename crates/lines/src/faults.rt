// What a sheet is refused for.
ghost use Rattle.std.specs.Prelude.{◌≡◌};
ghost use Rattle.lines.specs.Faults.{fault as fault_of, number_of, layer_of, sheet_number, sheet_from};

use std::error::Error;
use std::fmt;

// The question that got a no, in the order in which they are asked, with the number under which a refusal is shown.
#[derive(Clone, Copy, Debug, PartialEq, Eq)]
pub enum FaultKind {
    TooLong = 1,
    Unended = 2,
    WrongKey = 3,
    Malformed = 4,
    OutOfRange = 5,
    Disordered = 6,
    PairTaken = 7,
    Trailing = 8,
}

// Who found it: the line by itself, or the sheet as a whole.
#[derive(Clone, Copy, Debug, PartialEq, Eq)]
pub enum Layer {
    Line,
    Sheet,
}

// Which of the two sheets, with the number under which it is shown.
#[derive(Clone, Copy, Debug, PartialEq, Eq)]
pub enum Sheet {
    Posts = 1,
    Staff = 2,
}

// The first fault of a sheet, which goes by its number: 1 is posts and 2 staff. Lines count from 1, and places in bytes from 0.
#[derive(Clone, Copy, Debug, PartialEq, Eq)]
pub struct Fault {
    pub kind: FaultKind,
    pub sheet: u8,
    pub line: usize,
    pub place: usize,
    pub layer: Layer,
}

// Where a line begins. Its sheet stays a number, and so does a fault's: the readers of a line take any number for it, and hand it on as it is.
#[derive(Clone, Copy, Debug, PartialEq, Eq)]
pub struct Spot {
    pub sheet: u8,
    pub line: usize,
    pub place: usize,
}

impl FaultKind {
    // The number under which a refusal is shown.
    pub fn number(self) -> u8
        ensures { result ≡ number_of self }
    {
        self as u8
    }

    // Who finds it. A match, and no conversion: it sorts eight kinds into two layers.
    fn layer(self) -> Layer
        ensures { result ≡ layer_of self }
    {
        match self {
            FaultKind::WrongKey
            | FaultKind::Malformed
            | FaultKind::OutOfRange
            | FaultKind::Disordered => Layer::Line,
            _ => Layer::Sheet,
        }
    }
}

impl Sheet {
    // The number under which the sheet is shown.
    pub fn number(self) -> u8
        ensures { result ≡ sheet_number self }
    {
        self as u8
    }
}

// A number other than 2 means posts.
impl From<u8> for Sheet {
    ghost from_gives = { λ n s. s ≡ sheet_from n };

    fn from(number: u8) -> Sheet {
        if number == 2 {
            Sheet::Staff
        } else {
            Sheet::Posts
        }
    }
}

impl fmt::Display for Sheet {
    fn fmt<W: fmt::Write>(&self, f: &mut fmt::Formatter<W>) -> fmt::Result {
        f.write_str(match self {
            Sheet::Posts => "posts",
            Sheet::Staff => "staff",
        })
    }
}

impl fmt::Display for Layer {
    fn fmt<W: fmt::Write>(&self, f: &mut fmt::Formatter<W>) -> fmt::Result {
        f.write_str(match self {
            Layer::Line => "line",
            Layer::Sheet => "sheet",
        })
    }
}

// What is wrong, in words.
impl fmt::Display for FaultKind {
    fn fmt<W: fmt::Write>(&self, f: &mut fmt::Formatter<W>) -> fmt::Result {
        f.write_str(match self {
            FaultKind::TooLong => "the sheet has more than 30,000 bytes",
            FaultKind::Unended => "the line has no line end, or is missing",
            FaultKind::WrongKey => "the line does not start with the key that is due",
            FaultKind::Malformed => "the numbers are not well written, or not as many as are due",
            FaultKind::OutOfRange => "a number is too small or too large",
            FaultKind::Disordered => "a number stands twice, or the numbers are in the wrong order",
            FaultKind::PairTaken => "an earlier lane has this school and subject",
            FaultKind::Trailing => "the sheet should have ended before this line",
        })
    }
}

impl fmt::Display for Fault {
    fn fmt<W: fmt::Write>(&self, f: &mut fmt::Formatter<W>) -> fmt::Result {
        write!(
            f,
            "the sheet of {}, line {}: {}",
            Sheet::from(self.sheet),
            self.line,
            self.kind
        )
    }
}

impl Error for Fault {}

impl Spot {
    // A fault of the line that begins here.
    pub fn fault(self, kind: FaultKind) -> Fault
        ensures { result ≡ fault_of self kind }
    {
        Fault {
            kind,
            sheet: self.sheet,
            line: self.line,
            place: self.place,
            layer: kind.layer(),
        }
    }
}
