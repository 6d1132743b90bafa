use hail_field::Memory;
use std::alloc::{AllocError, AllocFailed};
use std::io;
use std::num::ParseIntError;

/// Why nothing was measured.
#[derive(Drop)]
pub enum Failure {
    /// The words name no work.
    Usage,
    /// There was no memory, or the system failed.
    Fault,
}

impl From<AllocError> for Failure {
    fn from(_: AllocError) -> Failure {
        Failure::Fault
    }
}

impl<T: Drop> From<AllocFailed<T>> for Failure {
    fn from(_: AllocFailed<T>) -> Failure {
        Failure::Fault
    }
}

impl From<Memory> for Failure {
    fn from(_: Memory) -> Failure {
        Failure::Fault
    }
}

impl From<ParseIntError> for Failure {
    fn from(_: ParseIntError) -> Failure {
        Failure::Usage
    }
}

impl From<io::Error> for Failure {
    fn from(_: io::Error) -> Failure {
        Failure::Fault
    }
}
