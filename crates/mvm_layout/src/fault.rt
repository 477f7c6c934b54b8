ghost use Rattle.std.specs.Prelude.{◌≡◌};
ghost use Rattle.mvm_layout.specs.declared.fault.ClassFault.TheVariants.{OutOfMemory};

use mvm_base::OutOfMemory;
use std::alloc::{AllocError, AllocFailed};

/// Why bytes are no class file: the first fault. A place is counted in bytes from the beginning of the file.
#[derive(Clone, Copy, Debug, PartialEq, Eq)]
pub enum ClassFault {
    /// The first four bytes are not CAFEBABE (JVM Specification 4.1).
    Magic,
    /// The major version, which is not one of 45 to 52 (4.1).
    Version(u16),
    /// A number or a run of bytes that begins at this place is not whole.
    Truncated(u32),
    /// At this place a byte stands behind the end of the class file.
    Trailing(u32),
    /// The entry of this index of the constant pool can't stand there (4.4): its tag is none that is known, its text is
    /// no modified UTF-8, it is a long or a double at the last index, or an index in it names no entry of the kind that
    /// it should. It is 0 where the count of the pool is 0.
    Pool(u16),
    /// What stands at this place can't stand in a class file (4.2, 4.3, 4.5 to 4.7).
    Shape(u32),
    /// What stands at this place is left out of this machine's profile. It is 0 where the file as a whole can't be run yet.
    Unsupported(u32),
    /// Memory was wanted and was not to be had. No clause says when it comes.
    OutOfMemory,
}

impl From<AllocError> for ClassFault {
    ghost from_gives = { λ _ e. e ≡ OutOfMemory };

    fn from(_refused: AllocError) -> ClassFault {
        ClassFault::OutOfMemory
    }
}

impl<T: Drop> From<AllocFailed<T>> for ClassFault {
    ghost from_gives = { λ _ e. e ≡ OutOfMemory };

    fn from(_refused: AllocFailed<T>) -> ClassFault {
        ClassFault::OutOfMemory
    }
}

impl From<OutOfMemory> for ClassFault {
    ghost from_gives = { λ _ e. e ≡ OutOfMemory };

    fn from(_refused: OutOfMemory) -> ClassFault {
        ClassFault::OutOfMemory
    }
}
