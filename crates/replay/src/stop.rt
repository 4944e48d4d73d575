// Why the program runs no further case.
use std::alloc::{AllocError, AllocFailed};
use std::io;

#[derive(Clone, Copy, Debug, PartialEq, Eq)]
pub enum Stop {
    // The input has ended, or a read failed.
    NoInput,
    // No operation has the number.
    NoOperation,
    // A piece of a case is longer than any case has it.
    TooLong,
    OutOfMemory,
}

impl From<io::Error> for Stop {
    fn from(_error: io::Error) -> Stop {
        Stop::NoInput
    }
}

impl From<AllocError> for Stop {
    fn from(_error: AllocError) -> Stop {
        Stop::OutOfMemory
    }
}

impl<T: Drop> From<AllocFailed<T>> for Stop {
    fn from(_error: AllocFailed<T>) -> Stop {
        Stop::OutOfMemory
    }
}
