ghost use Rattle.std.specs.Prelude.{◌≡◌, ℕ, ◌≤◌, length, List, Option, IfOk, IfSome};
ghost use Rattle.std.specs.Io.{ReadsAtMost, WritesAtMost};
ghost use Rattle.std.specs.Io.KnownBytes.{ReadConsumes, WriteAppends};
ghost use Rattle.mvm_outside.specs.Causes.{Rose, HasCause, CountsIdle};
ghost use Rattle.mvm_outside.specs.Files.{HasFile, HasNoFile, HasLongFile};

use mvm_base::{Line, List};
use std::alloc::Global;

/// How many bytes a file of a store may have at most: 1,048,576.
pub const MOST_FILE_BYTES: usize = 1_048_576;

/// The outside failed, and counted a fault.
#[derive(Clone, Copy, Debug, PartialEq, Eq)]
pub struct Failed;

/// Where bytes come from.
pub trait Source {
    /// The bytes that are left, where the source tells them.
    ghost left: { Self → Option (List ℕ) };

    /// The count of the source's faults. It never falls, and rises at least where a call answers `Failed`, unless it
    /// stands at the last value of a u64.
    ghost faults: { Self → ℕ };

    /// Puts the next bytes at the front of `buf`, and says how many. For a `buf` that is not empty, 0 says that
    /// no bytes are left. `Failed` took no bytes from the source, and says nothing of what `buf` holds then.
    fn read(&mut self, buf: &mut [u8]) -> Result<usize, Failed>
        ensures bound { ReadsAtMost result buf.new }
        ensures bytes { ReadConsumes (left self.old) (left self.new) result buf.new }
        ensures cause { HasCause (faults self.old) (faults self.new) result };
}

/// Why a store did not answer with a file.
#[derive(Clone, Copy, Debug, PartialEq, Eq)]
pub enum StoreFault {
    /// The store failed, and counted a fault.
    Failed,
    /// The file has more than `MOST_FILE_BYTES` bytes.
    TooLong,
    /// There was no memory for the bytes of the file. No clause says when that is.
    OutOfMemory,
}

/// Where files are looked for by name.
pub trait Store {
    /// The bytes of the file of each name, where the store tells them.
    ghost files: { Self → Option (List ℕ → Option (List ℕ)) };

    /// The count of the store's faults. It never falls, and rises at least where a call answers `Failed`, unless it
    /// stands at the last value of a u64.
    ghost faults: { Self → ℕ };

    /// The bytes of the file of this name, or `None` where there is no such file. Whatever it answers, the
    /// store holds the same files as before.
    fn read_file(&mut self, alloc: Global, name: &Line) -> Result<Option<List<u8>>, StoreFault>
        ensures kept { files self.new ≡ files self.old }

        // What each answer says of the files.
        ensures found { IfOk result (λ file. IfSome file (λ bytes. HasFile (files self.old) name.now bytes)) }
        ensures within { IfOk result (λ file. IfSome file (λ bytes. length bytes ≤ MOST_FILE_BYTES)) }
        ensures missing { result ≡ Ok None → HasNoFile (files self.old) name.now }
        ensures too_long { result ≡ Err StoreFault.TooLong → HasLongFile (files self.old) name.now MOST_FILE_BYTES }

        // What the count says of the call.
        ensures later { faults self.old ≤ faults self.new }
        ensures failed { result ≡ Err StoreFault.Failed → Rose (faults self.old) (faults self.new) };
}

/// Where bytes go.
pub trait Sink {
    /// All bytes that the sink took, in their order, where the sink tells them.
    ghost taken: { Self → Option (List ℕ) };

    /// The count of the sink's faults. It never falls, and rises at least where a call answers `Failed`, unless it
    /// stands at the last value of a u64.
    ghost faults: { Self → ℕ };

    /// The count of idle writes. It never falls, stands where the piece is empty, and rises at least where the sink takes
    /// nothing of a piece that is not empty and does not fail, unless it stands at the last value of a u64.
    ghost idle: { Self → ℕ };

    /// Takes bytes from the front of `piece`, and says how many. `Failed` took none.
    fn write(&mut self, piece: &[u8]) -> Result<usize, Failed>
        ensures bound { WritesAtMost result piece.now }
        ensures bytes { WriteAppends (taken self.old) (taken self.new) result piece.now }
        ensures cause { HasCause (faults self.old) (faults self.new) result }
        ensures idle { CountsIdle (idle self.old) (idle self.new) result piece.now };
}

/// What a worker passes at each turn, so that a test can say in which order the turns come.
pub trait Gate: Sync {
    /// Called once at the beginning of each turn: worker number `worker` begins its turn on isolate number
    /// `isolate` in round number `round`. Rounds are numbered from 1. It may wait, and it changes nothing that is
    /// claimed of the machine, so it has no clause.
    fn pass(&self, worker: u32, isolate: u32, round: u64);
}

/// A gate that is always open: passing it does nothing.
#[derive(Clone, Copy, Debug, PartialEq, Eq)]
pub struct NoGate;

impl Gate for NoGate {
    fn pass(&self, _worker: u32, _isolate: u32, _round: u64) {}
}
