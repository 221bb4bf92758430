//! Why a line was not taken, or a case not run.
use std::alloc::{AllocError, AllocFailed};
use std::num::ParseIntError;
use x7_words::NoMemory;

/// Why a line was not taken, or a case not run.
#[derive(Clone, Copy, Drop)]
pub enum Fault {
    /// The line begins with a key that the format lacks.
    Key,
    /// The line isn't one of the format, or can't stand where it does: it names what isn't there, or what is there
    /// already.
    Line,
    /// There was no memory.
    NoMemory,
}

impl From<AllocError> for Fault {
    fn from(_error: AllocError) -> Fault {
        Fault::NoMemory
    }
}

impl<T: Drop> From<AllocFailed<T>> for Fault {
    fn from(_error: AllocFailed<T>) -> Fault {
        Fault::NoMemory
    }
}

impl From<NoMemory> for Fault {
    fn from(_error: NoMemory) -> Fault {
        Fault::NoMemory
    }
}

impl From<ParseIntError> for Fault {
    fn from(_error: ParseIntError) -> Fault {
        Fault::Line
    }
}
