// Why the program ends with status 1. It prints the case's name, for want of memory or of a stream as much as for a refusal, so the errors of the calls
// become cases of one enum.
use lines::Fault;
use std::alloc::AllocError;
use std::{io, result};

#[derive(Debug, Drop)]
pub enum Stop {
    // the program wants memory
    Memory,
    // the standard output could not be written
    Stream,
    // a sheet of the program's own is refused
    BadSheet,
}

// What the functions of the program answer.
pub type Result<T, E = Stop> = result::Result<T, E>;

impl From<AllocError> for Stop {
    fn from(_e: AllocError) -> Stop {
        Stop::Memory
    }
}

impl From<io::Error> for Stop {
    fn from(_e: io::Error) -> Stop {
        Stop::Stream
    }
}

impl From<Fault> for Stop {
    fn from(_e: Fault) -> Stop {
        Stop::BadSheet
    }
}
