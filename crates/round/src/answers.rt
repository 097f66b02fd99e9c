// What the calls answer.
ghost use Rattle.std.specs.Prelude.{◌≡◌};
ghost use Rattle.round.specs.Calls.{refusal_number};
ghost use Rattle.round.specs.Trials.{refusal_of, wish_refusal_of, row_refusal};

use book::{BadRow, TrialRefusal};
use sheets::WishRefusal;
use std::error::Error;
use std::fmt;

// Why a call is denied, with the number under which it is shown.
#[derive(Clone, Copy, Debug, PartialEq, Eq)]
pub enum Refusal {
    // the round is posted, or none is opened
    Posted = 9,
    // no such teacher
    NoTeacher = 10,
    // more than 12 wishes, a school outside the round, or one named twice
    BadWishes = 11,
    // no such lane
    NoLane = 12,
    // the lane is not over-asked
    NotOverAsked = 13,
    // a lane is over-asked
    OverAsked = 14,
    // a tried cutoff of 0, or more than one above the lane's licensed teachers
    BadCutoff = 15,
    // the teacher is not licensed for the lane
    NotLicensed = 16,
    // a row that has not one byte a teacher
    BadRow = 17,
}

impl Refusal {
    // The number under which the refusal is shown.
    pub fn number(self) -> u8
        ensures { result ≡ refusal_number self }
    {
        self as u8
    }
}

impl fmt::Display for Refusal {
    // Why the call is denied, in words.
    fn fmt<W: fmt::Write>(&self, f: &mut fmt::Formatter<W>) -> fmt::Result {
        f.write_str(match self {
            Refusal::Posted => "the round is posted",
            Refusal::NoTeacher => "there is no such teacher",
            Refusal::BadWishes => "too many schools, one that does not exist, or one named twice",
            Refusal::NoLane => "there is no such lane",
            Refusal::NotOverAsked => "the lane is not over-asked",
            Refusal::OverAsked => "a lane is over-asked",
            Refusal::BadCutoff => "no such cutoff can be tried in the lane",
            Refusal::NotLicensed => "the teacher has no licence for the lane",
            Refusal::BadRow => "the row has not one byte a teacher",
        })
    }
}

impl Error for Refusal {}

impl From<TrialRefusal> for Refusal {
    ghost from_gives = { λ refusal made. made ≡ refusal_of refusal };

    // The refusal of a trial, as the calls of a place have it.
    fn from(refusal: TrialRefusal) -> Refusal {
        match refusal {
            TrialRefusal::NoLane => Refusal::NoLane,
            TrialRefusal::BadCutoff => Refusal::BadCutoff,
            TrialRefusal::BadRow => Refusal::BadRow,
        }
    }
}

impl From<WishRefusal> for Refusal {
    ghost from_gives = { λ refusal made. made ≡ wish_refusal_of refusal };

    // The refusal of a wish list, as the calls of a place have it.
    fn from(refusal: WishRefusal) -> Refusal {
        match refusal {
            WishRefusal::NoTeacher => Refusal::NoTeacher,
            WishRefusal::BadWishes => Refusal::BadWishes,
        }
    }
}

impl From<BadRow> for Refusal {
    ghost from_gives = { λ _ made. made ≡ row_refusal };

    // The refusal of a row, as the calls of a place have it.
    fn from(_row: BadRow) -> Refusal {
        Refusal::BadRow
    }
}

// The presses that settle made, and whether a lane is still over-asked.
#[derive(Clone, Copy, Debug, PartialEq, Eq)]
pub struct Settled {
    pub presses: u32,
    pub over: bool,
}
