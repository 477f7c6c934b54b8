ghost use Rattle.std.specs.Prelude.{◌≡◌, ◌+◌, ◌≤◌, ◌<◌, ◌⊎◌, [], length, take, IfOk, IfErr, OnOk, OnErr, IfSome, Err};
ghost use Rattle.std.specs.Io.KnownBytes.{Appends, IsAtEnd};
ghost use Rattle.mvm_outside.specs.Causes.{Rose, LosesAtMost};

use crate::traits::{Sink, Source};
use mvm_base::List;
use std::alloc::Global;

/// Why the whole of a source was not read.
#[derive(Clone, Copy, Debug, PartialEq, Eq)]
pub enum ReadRefusal {
    /// The source failed.
    ReadFault,
    /// The source gave more bytes than were wanted at most.
    InputTooLong,
    /// There was no memory for the bytes. No clause says when that is.
    OutOfMemory,
}

/// How many bytes are asked for at most in one call.
const BUFFER_BYTES: usize = 4096;

/// All bytes that are left of a source, which may be `most` at most.
pub fn read_all<S: Source>(
    alloc: Global,
    source: &mut S,
    most: usize,
) -> Result<List<u8>, ReadRefusal>
    // All of the bytes, and no more of them than were wanted.
    ensures ok { IfOk result (λ bytes. IfSome (S.left source.old) (λ left. bytes ≡ left)) }
    ensures within { IfOk result (λ bytes. length bytes ≤ most) }
    ensures end { OnOk result (IsAtEnd (S.left source.new)) }

    // When each error comes.
    ensures read_fault { result ≡ Err ReadRefusal.ReadFault → Rose (S.faults source.old) (S.faults source.new) }
    ensures too_long { result ≡ Err ReadRefusal.InputTooLong → IfSome (S.left source.old) (λ left. most < length left) }

    // Whatever the answer, at most one byte past the limit was taken from the source.
    ensures taken { LosesAtMost (S.left source.old) (S.left source.new) (most + 1) }

    // The count of faults never falls.
    ensures count { S.faults source.old ≤ S.faults source.new }
{
    let mut all = Vec::new(alloc);
    let mut buf = [0u8; BUFFER_BYTES];
    loop {
        let room = most - all.len();
        let (piece, _) = buf.split_at_mut(room.saturating_add(1).min(BUFFER_BYTES));
        let count = match source.read(piece) {
            Ok(count) => count,
            Err(_) => return Err(ReadRefusal::ReadFault),
        };
        if count == 0 {
            return Ok(List::from_vec(all));
        }
        if count > room {
            return Err(ReadRefusal::InputTooLong);
        }
        let (front, _) = piece.split_at(count);
        if all.extend_from_slice(front).is_err() {
            return Err(ReadRefusal::OutOfMemory);
        }
    }
}

/// Writes all bytes, or says how many of them, from the first on, were taken before a write failed or took
/// nothing.
pub fn write_all<K: Sink>(sink: &mut K, bytes: &[u8]) -> Result<(), usize>
    // What was taken.
    ensures ok { OnOk result (Appends (K.taken sink.old) (K.taken sink.new) bytes.now) }
    ensures prefix { IfErr result (λ done. (done < length bytes.now) × Appends (K.taken sink.old) (K.taken sink.new) (take done bytes.now)) }
    ensures empty { bytes.now ≡ [] → sink.new ≡ sink.old }

    // Why not all was, and that no count falls.
    ensures cause { OnErr result (Rose (K.faults sink.old) (K.faults sink.new) ⊎ Rose (K.idle sink.old) (K.idle sink.new)) }
    ensures faults { K.faults sink.old ≤ K.faults sink.new }
    ensures idle { K.idle sink.old ≤ K.idle sink.new }
{
    let mut done = 0;
    while done < bytes.len() {
        let (_, rest) = bytes.split_at(done);
        match sink.write(rest) {
            Ok(0) => return Err(done),
            Ok(count) => done += count,
            Err(_) => return Err(done),
        }
    }
    Ok(())
}
