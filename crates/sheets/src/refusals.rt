// What a call refuses.
ghost use Rattle.std.specs.Prelude.{◌≡◌};
ghost use Rattle.sheets.specs.Written.{write_refusal_number};

use std::error::Error;
use std::fmt;

// Why nothing was written, with the number under which the refusal is shown.
#[derive(Clone, Copy, Debug, PartialEq, Eq)]
pub enum WriteRefusal {
    BufferTooShort = 18,
}

impl WriteRefusal {
    // The number under which the refusal is shown.
    pub fn number(self) -> u8
        ensures { result ≡ write_refusal_number self }
    {
        self as u8
    }
}

impl fmt::Display for WriteRefusal {
    fn fmt<W: fmt::Write>(&self, f: &mut fmt::Formatter<W>) -> fmt::Result {
        f.write_str("the buffer is too short for the sheet")
    }
}

impl Error for WriteRefusal {}

// Why a teacher's wish list stays as it is.
#[derive(Clone, Copy, Debug, PartialEq, Eq)]
pub enum WishRefusal {
    // no such teacher
    NoTeacher,
    // more than 12 wishes, a school outside the round, or one named twice
    BadWishes,
}

impl fmt::Display for WishRefusal {
    fn fmt<W: fmt::Write>(&self, f: &mut fmt::Formatter<W>) -> fmt::Result {
        f.write_str(match self {
            WishRefusal::NoTeacher => "there is no such teacher",
            WishRefusal::BadWishes =>
                "too many schools, one that does not exist, or one named twice",
        })
    }
}

impl Error for WishRefusal {}
