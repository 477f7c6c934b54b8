use mvm_base::OutOfMemory;
use mvm_outside::StoreFault;
use std::alloc::{AllocError, AllocFailed};
use std::io;

/// Why not all was told.
#[derive(Clone, Copy, Debug, PartialEq, Eq)]
pub enum Refusal {
    /// A word is no name.
    Usage,
    /// A file could not be read.
    ReadFailed,
    /// A file has more than 1,048,576 bytes.
    TooLong,
    /// Standard output could not be written.
    WriteFailed,
    /// Memory ran out.
    OutOfMemory,
}

impl From<AllocError> for Refusal {
    fn from(_refused: AllocError) -> Refusal {
        Refusal::OutOfMemory
    }
}

impl<T: Drop> From<AllocFailed<T>> for Refusal {
    fn from(_refused: AllocFailed<T>) -> Refusal {
        Refusal::OutOfMemory
    }
}

impl From<OutOfMemory> for Refusal {
    fn from(_refused: OutOfMemory) -> Refusal {
        Refusal::OutOfMemory
    }
}

impl From<StoreFault> for Refusal {
    fn from(fault: StoreFault) -> Refusal {
        match fault {
            StoreFault::Failed => Refusal::ReadFailed,
            StoreFault::TooLong => Refusal::TooLong,
            StoreFault::OutOfMemory => Refusal::OutOfMemory,
        }
    }
}

/// Of writing to standard output, the one thing that answers such errors here.
impl From<io::Error> for Refusal {
    fn from(_failed: io::Error) -> Refusal {
        Refusal::WriteFailed
    }
}
