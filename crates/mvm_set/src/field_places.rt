ghost use Rattle.std.specs.Prelude.{◌≡◌, ◌<◌, ◌^◌, length, slice_get, IfOk};
ghost use Rattle.mvm_set.specs.FieldPlaces.{ArePlaces};

use mvm_base::OutOfMemory;
use mvm_classfile::Member;
use mvm_layout::flags::is_static;
use std::alloc::Global;

/// The fields of a file, counted by sort: static fields, and instance fields.
#[derive(Debug, Drop)]
pub(crate) struct FieldPlaces {
    /// Of each field, in the order of the file, how many fields of its own sort stand before it.
    before: Vec<u16>,
    /// How many instance fields there are.
    instance: u16,
}

impl FieldPlaces {
    /// These fields, counted.
    pub(crate) fn new(alloc: Global, fields: &[Member]) -> Result<FieldPlaces, OutOfMemory>
        requires { length fields.now < 2 ^ 16 }
        ensures { IfOk result (λ places. ArePlaces fields.now places) }
    {
        let mut before = Vec::new(alloc);
        let mut statics: u16 = 0;
        let mut instance: u16 = 0;
        for i in 0..fields.len() {
            if is_static(fields[i].flags) {
                before.push(statics)?;
                statics += 1;
            } else {
                before.push(instance)?;
                instance += 1;
            }
        }
        Ok(FieldPlaces { before, instance })
    }

    /// How many fields of its own sort stand before the field of a place.
    pub(crate) fn before(&self, index: u16) -> Option<u16>
        ensures { result ≡ slice_get self.now.before.items index }
    {
        match self.before.get(usize::from(index)) {
            Some(before) => Some(*before),
            None => None,
        }
    }

    /// How many instance fields there are.
    pub(crate) fn instance(&self) -> u16
        ensures { result ≡ self.now.instance }
    {
        self.instance
    }
}
