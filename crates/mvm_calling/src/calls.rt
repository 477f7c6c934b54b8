//! The calls that are kept, by the class whose constant pool names the method, and by the index at which it does.

ghost use Rattle.std.specs.Prelude.{◌≡◌, [], IfSome};
ghost use Rattle.mvm_isolate.specs.Numbered.{Numbered};
ghost use Rattle.mvm_calling.specs.KeptCalls.{AreCalls, IsStaticCall};

use crate::static_call::StaticCall;
use mvm_base::List;
use std::alloc::{AllocError, Global};
use std::marker::Model;

/// The calls that an isolate keeps. Where each is kept is a hint: a call itself says where it belongs.
#[derive(Drop)]
pub struct Calls {
    /// Where the places of a class begin, by its number: one more than that, or 0 where none were made.
    starts: List<u32>,
    /// The number of each call, by the start of its class and its index: one more than that, or 0.
    places: List<u32>,
    /// The calls of static methods.
    statics: List<StaticCall>,
}

impl Model for Calls {
    ghost use Rattle.std.specs.Prelude.{List as Items};
    ghost use Rattle.mvm_calling.specs.declared.static_call.StaticCall.{StaticCall as StaticCallOf};

    ghost Value = { Items StaticCallOf };

    ghost view = { λ calls. calls.statics };
}

/// The number that a list has at a place, less one.
pub(crate) fn number_at(numbers: &List<u32>, at: usize) -> Option<usize> {
    match numbers.get(at) {
        Some(number) => (*number as usize).checked_sub(1),
        None => None,
    }
}

/// Adds so many times the number 0.
fn add_zeros(numbers: &mut List<u32>, count: usize) -> Result<(), AllocError> {
    for _ in 0..count {
        numbers.push(0)?;
    }
    Ok(())
}

/// Makes the places of a class, if there are none.
pub(crate) fn reserve(
    starts: &mut List<u32>,
    places: &mut List<u32>,
    home: usize,
    entries: usize,
) -> Result<(), AllocError> {
    if starts.len() <= home {
        let missing = home - starts.len();
        add_zeros(starts, missing)?;
        starts.push(0)?;
    }
    if home < starts.len() && number_at(starts, home).is_none() {
        let start = u32::try_from(places.len())
            .unwrap_or(u32::MAX)
            .saturating_add(1);
        add_zeros(places, entries)?;
        starts.set(home, start);
    }
    Ok(())
}

/// Sets the number of the call of an index, where there is a place for it.
pub(crate) fn set_number(places: &mut List<u32>, start: usize, index: usize, number: usize) {
    let place = start.saturating_add(index);
    if place < places.len() {
        let next = u32::try_from(number).unwrap_or(u32::MAX).saturating_add(1);
        places.set(place, next);
    }
}

impl Calls {
    /// None yet. It takes no memory.
    pub fn new(alloc: Global) -> Calls
        ensures { result ≡ [] }
    {
        Calls {
            starts: List::new(alloc),
            places: List::new(alloc),
            statics: List::new(alloc),
        }
    }

    /// Where the number of the call of an index stands.
    fn place(&self, home: u32, index: u16) -> Option<usize> {
        match number_at(&self.starts, home as usize) {
            Some(start) => start.checked_add(usize::from(index)),
            None => None,
        }
    }

    /// Keeps the call of a static method of a class whose constant pool has so many entries. Where memory is short it is not kept.
    pub(crate) fn keep_static(&mut self, entries: usize, call: StaticCall)
        ensures { (n : Numbered) → AreCalls n self.old → IsStaticCall n call → AreCalls n self.new }
    {
        let home = call.home as usize;
        let index = usize::from(call.index);
        if index >= entries || reserve(&mut self.starts, &mut self.places, home, entries).is_err() {
            return;
        }
        let number = self.statics.len();
        if self.statics.push(call).is_err() {
            return;
        }
        match number_at(&self.starts, home) {
            Some(start) => set_number(&mut self.places, start, index, number),
            None => {}
        }
    }

    /// The call of a static method that a class's constant pool names at an index, if it is kept.
    pub(crate) fn static_call(&self, home: u32, index: u16) -> Option<&StaticCall>
        ensures kept { (n : Numbered) → AreCalls n self.now → IfSome result (λ call. IsStaticCall n call.now) }
        ensures home { IfSome result (λ call. call.now.home ≡ home) }
        ensures index { IfSome result (λ call. call.now.index ≡ index) }
    {
        let place = self.place(home, index)?;
        let number = number_at(&self.places, place)?;
        let call = self.statics.get(number)?;
        if call.home == home && call.index == index {
            Some(call)
        } else {
            None
        }
    }
}
