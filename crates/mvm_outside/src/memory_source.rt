ghost use Rattle.std.specs.Prelude.{◌≡◌, ◌<◌, ◌≤◌, ◌++◌, [], length, take, is_err, IsOk, Some};
ghost use Rattle.std.specs.Io.{ReadsAtMost};
ghost use Rattle.std.specs.Io.KnownBytes.{ReadConsumes};
ghost use Rattle.mvm_outside.specs.Causes.{HasCause, counted_if, next_count};
ghost use Rattle.mvm_outside.specs.Memory.{is_failing};

use crate::traits::{Failed, Source};
use mvm_base::List;
use std::marker::Model;

/// Bytes in memory that are read front to back, seen as those that are left.
#[derive(Debug, Drop)]
struct Tape {
    bytes: List<u8>,
    at: usize,
}

impl Model for Tape {
    ghost use Rattle.std.specs.Prelude.{List, ℕ, ◌≤◌, drop, length};

    ghost Value = { List ℕ };

    ghost view = { λ t. drop t.at t.bytes };

    ghost invariant = { λ t. t.at ≤ length t.bytes };
}

impl Tape {
    fn new(bytes: List<u8>) -> Tape
        ensures { result ≡ bytes }
    {
        Tape { bytes, at: 0 }
    }

    /// Moves what fits of the bytes into `buf`, and says how many.
    fn read(&mut self, buf: &mut [u8]) -> usize
        ensures bound { result ≤ length buf.new }
        ensures bytes { self.old ≡ take result buf.new ++ self.new }
        ensures end { result ≡ 0 → 0 < length buf.new → self.new ≡ [] }
    {
        let (_, left) = self.bytes.as_slice().split_at(self.at);
        let count = copy_front(left, buf);
        self.at += count;
        count
    }
}

/// Copies what fits of the bytes, and says how many.
fn copy_front(from: &[u8], to: &mut [u8]) -> usize
    ensures within { result ≤ length from.now }
    ensures bound { result ≤ length to.new }
    ensures bytes { take result to.new ≡ take result from.now }
    ensures end { result ≡ 0 → 0 < length to.new → from.now ≡ [] }
{
    let count = from.len().min(to.len());
    let (front, _) = from.split_at(count);
    to[..count].copy_from_slice(front);
    count
}

/// A source over memory that fails where it is told to.
#[derive(Debug, Drop)]
pub struct MemorySource {
    tape: Tape,
    failing: List<u64>,
    calls: u64,
    faults: u64,
}

impl Model for MemorySource {
    ghost use Rattle.mvm_outside.specs.Memory.{SourceState};

    ghost Value = { SourceState };

    ghost view = { λ s. record { left = s.tape; failing = s.failing; calls = s.calls; faults = s.faults } };
}

impl MemorySource {
    /// A source of these bytes, of which the calls whose numbers stand in `failing` fail. Calls are numbered
    /// from 0. With an empty `failing` no call fails, and the count of faults stays 0.
    pub fn new(bytes: List<u8>, failing: List<u64>) -> MemorySource
        ensures { result ≡ record { left = bytes; failing = failing; calls = 0; faults = 0 } }
    {
        MemorySource {
            tape: Tape::new(bytes),
            failing,
            calls: 0,
            faults: 0,
        }
    }
}

impl Source for MemorySource {
    ghost left = { λ s. Some s.left };

    ghost faults = { λ s. s.faults };

    /// Fails exactly where the number of the call is one of those that fail, and counts a fault exactly there.
    fn read(&mut self, buf: &mut [u8]) -> Result<usize, Failed>
        ensures bound { ReadsAtMost result buf.new }
        ensures bytes { ReadConsumes (Some self.old.left) (Some self.new.left) result buf.new }
        ensures cause { HasCause self.old.faults self.new.faults result }
        ensures fails { is_err result ≡ is_failing self.old.failing self.old.calls }
        ensures counts { self.new.faults ≡ counted_if (is_err result) self.old.faults }
        ensures others { self.new ≡ record self.old { left = self.new.left; calls = next_count self.old.calls; faults = self.new.faults } }
    {
        let call = self.calls;
        self.calls = call.saturating_add(1);
        if self.failing.as_slice().contains(&call) {
            self.faults = self.faults.saturating_add(1);
            return Err(Failed);
        }
        Ok(self.tape.read(buf))
    }
}

/// A source over memory that never fails: its count of faults is always 0. To a clause it is the bytes that are
/// left.
#[derive(Debug, Drop)]
pub struct NeverSource {
    tape: Tape,
}

impl Model for NeverSource {
    ghost use Rattle.std.specs.Prelude.{List, ℕ};

    ghost Value = { List ℕ };

    ghost view = { λ s. s.tape };
}

impl NeverSource {
    /// A source of these bytes.
    pub fn new(bytes: List<u8>) -> NeverSource
        ensures { result ≡ bytes }
    {
        NeverSource {
            tape: Tape::new(bytes),
        }
    }
}

impl Source for NeverSource {
    ghost left = { λ s. Some s };

    ghost faults = { λ _. 0 };

    /// Never fails.
    fn read(&mut self, buf: &mut [u8]) -> Result<usize, Failed>
        ensures bound { ReadsAtMost result buf.new }
        ensures bytes { ReadConsumes (Some self.old) (Some self.new) result buf.new }
        ensures cause { HasCause 0 0 result }
        ensures never { IsOk result }
    {
        Ok(self.tape.read(buf))
    }
}
