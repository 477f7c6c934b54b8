//! The calls with a receiver that are kept, by the class whose constant pool names the method, and by the index at which it does.

ghost use Rattle.std.specs.Prelude.{◌≡◌, [], IfSome};
ghost use Rattle.mvm_isolate.specs.Numbered.{Numbered};
ghost use Rattle.mvm_calling.specs.KeptVirtual.{AreVirtualCalls, IsVirtualCall};

use crate::calls::{number_at, reserve, set_number};
use crate::virtual_call::VirtualCall;
use mvm_base::List;
use std::alloc::Global;
use std::marker::Model;

/// The calls with a receiver that an isolate keeps, each for the last class of a receiver. Where each is kept is a hint: a call itself says where it belongs.
#[derive(Drop)]
pub struct VirtualCalls {
    /// Where the places of a class begin, by its number: one more than that, or 0 where none were made.
    starts: List<u32>,
    /// The number of each call, by the start of its class and its index: one more than that, or 0.
    places: List<u32>,
    /// The calls.
    calls: List<VirtualCall>,
}

impl Model for VirtualCalls {
    ghost use Rattle.std.specs.Prelude.{List as Items};
    ghost use Rattle.mvm_calling.specs.declared.virtual_call.VirtualCall.{VirtualCall as VirtualCallOf};

    ghost Value = { Items VirtualCallOf };

    ghost view = { λ calls. calls.calls };
}

impl VirtualCalls {
    /// None yet. It takes no memory.
    pub fn new(alloc: Global) -> VirtualCalls
        ensures { result ≡ [] }
    {
        VirtualCalls {
            starts: List::new(alloc),
            places: List::new(alloc),
            calls: List::new(alloc),
        }
    }

    /// The number of the call of an index.
    fn number(&self, home: u32, index: u16) -> Option<usize> {
        let start = number_at(&self.starts, home as usize)?;
        let place = start.checked_add(usize::from(index))?;
        number_at(&self.places, place)
    }

    /// Keeps the call of a class whose constant pool has so many entries, in the place of that for another class of the receiver. Where memory is
    /// short it is not kept.
    pub(crate) fn keep(&mut self, entries: usize, call: VirtualCall)
        ensures { (n : Numbered) → AreVirtualCalls n self.old → IsVirtualCall n call → AreVirtualCalls n self.new }
    {
        let home = call.call.home as usize;
        let index = usize::from(call.call.index);
        if let Some(number) = self.number(call.call.home, call.call.index) {
            if number < self.calls.len() {
                self.calls.set(number, call);
            }
            return;
        }
        if index >= entries || reserve(&mut self.starts, &mut self.places, home, entries).is_err() {
            return;
        }
        let number = self.calls.len();
        if self.calls.push(call).is_err() {
            return;
        }
        match number_at(&self.starts, home) {
            Some(start) => set_number(&mut self.places, start, index, number),
            None => {}
        }
    }

    /// The call that a class's constant pool names at an index, if it is kept.
    pub(crate) fn call(&self, home: u32, index: u16) -> Option<&VirtualCall>
        ensures kept { (n : Numbered) → AreVirtualCalls n self.now → IfSome result (λ call. IsVirtualCall n call.now) }
        ensures home { IfSome result (λ call. call.now.call.home ≡ home) }
        ensures index { IfSome result (λ call. call.now.call.index ≡ index) }
    {
        let number = self.number(home, index)?;
        let kept = self.calls.get(number)?;
        if kept.call.home == home && kept.call.index == index {
            Some(kept)
        } else {
            None
        }
    }
}
