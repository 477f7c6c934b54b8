ghost use Rattle.std.specs.Prelude.{◌≡◌, [], length, min, is_err, IsTrue, IsErr, IfOk, Some};
ghost use Rattle.std.specs.Io.{WritesAtMost};
ghost use Rattle.std.specs.Io.KnownBytes.{WriteAppends};
ghost use Rattle.mvm_outside.specs.Causes.{HasCause, CountsIdle, counted_if, is_idle, next_count};
ghost use Rattle.mvm_outside.specs.Memory.{is_failing};

use crate::traits::{Failed, Sink};
use mvm_base::List;
use std::alloc::Global;
use std::marker::Model;

/// A sink into memory that fails where it is told to.
#[derive(Debug, Drop)]
pub struct MemorySink {
    taken: Vec<u8>,
    most: usize,
    failing: List<u64>,
    calls: u64,
    faults: u64,
    idle: u64,
}

impl Model for MemorySink {
    ghost use Rattle.mvm_outside.specs.Memory.{SinkState};

    ghost Value = { SinkState };

    ghost view = { λ s. record { taken = s.taken.items; most = s.most; failing = s.failing; calls = s.calls; faults = s.faults; idle = s.idle } };
}

impl MemorySink {
    /// An empty sink that takes at most `most` bytes in a call, and of which the calls whose numbers stand in
    /// `failing` fail. Calls are numbered from 0. A call for whose bytes there is no memory fails too. With an
    /// empty `failing` and with memory at hand, no call fails and the count of faults stays 0.
    pub fn new(alloc: Global, most: usize, failing: List<u64>) -> MemorySink
        ensures { result ≡ record { taken = []; most = most; failing = failing; calls = 0; faults = 0; idle = 0 } }
    {
        MemorySink {
            taken: Vec::new(alloc),
            most,
            failing,
            calls: 0,
            faults: 0,
            idle: 0,
        }
    }

    /// The bytes that were taken so far.
    pub fn as_slice(&self) -> &[u8]
        ensures { result.now ≡ self.now.taken }
    {
        self.taken.as_slice()
    }
}

impl Sink for MemorySink {
    ghost taken = { λ s. Some s.taken };

    ghost faults = { λ s. s.faults };

    ghost idle = { λ s. s.idle };

    /// Takes as much as it may in a call. Fails where the number of the call is one of those that fail, and
    /// else only where there is no memory.
    fn write(&mut self, piece: &[u8]) -> Result<usize, Failed>
        ensures bound { WritesAtMost result piece.now }
        ensures bytes { WriteAppends (Some self.old.taken) (Some self.new.taken) result piece.now }
        ensures cause { HasCause self.old.faults self.new.faults result }
        ensures idle { CountsIdle self.old.idle self.new.idle result piece.now }
        ensures fails { IsTrue (is_failing self.old.failing self.old.calls) → IsErr result }
        ensures takes { IfOk result (λ count. count ≡ min (length piece.now) self.old.most) }
        ensures counts { self.new.faults ≡ counted_if (is_err result) self.old.faults }
        ensures idles { self.new.idle ≡ counted_if (is_idle result piece.now) self.old.idle }
        ensures others { self.new ≡ record self.old { taken = self.new.taken; calls = next_count self.old.calls; faults = self.new.faults; idle = self.new.idle } }
    {
        let call = self.calls;
        self.calls = call.saturating_add(1);
        if self.failing.as_slice().contains(&call) {
            self.faults = self.faults.saturating_add(1);
            return Err(Failed);
        }
        let count = piece.len().min(self.most);
        let (front, _) = piece.split_at(count);
        if piece.is_empty() {
            return Ok(0);
        }
        if count == 0 {
            self.idle = self.idle.saturating_add(1);
            return Ok(0);
        }
        match self.taken.extend_from_slice(front) {
            Ok(()) => Ok(count),
            Err(_) => {
                self.faults = self.faults.saturating_add(1);
                Err(Failed)
            }
        }
    }
}
