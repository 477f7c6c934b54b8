ghost use Rattle.std.specs.Prelude.{◌≡◌, ◌+◌, ◌*◌, ◌<◌, ◌≤◌, ◌^◌, ◌++◌, [], ◌∷◌, length, slice_get, slice_set, IfOk, IfSome, IfNone, OnSome, Some};
ghost use Rattle.mvm_heap.specs.Objects.{Stored};
ghost use Rattle.mvm_heap.specs.Packed.{bits};
ghost use Rattle.mvm_heap.specs.Sorts.{words_needed};
ghost use Rattle.mvm_heap.specs.Heap.{free, number_at, object_at, words, written, zeros};

use crate::block::place;
use crate::kind::ObjectKind;
use crate::rows::{class_in, length_in, monitor_in, number_in, put_in, set_monitor_in, sort_in};
use mvm_base::OutOfMemory;
use mvm_region::{Monitor, Region};
use std::alloc::Global;
use std::marker::Model;

/// Objects by number, packed in the words of a region.
#[derive(Debug, Drop)]
pub struct Store {
    region: Region,
    directory: Vec<u32>,
}

impl Model for Store {
    ghost use Rattle.std.specs.Prelude.{length, vec_capacity};
    ghost use Rattle.mvm_heap.specs.Objects.{Stored};
    ghost use Rattle.mvm_heap.specs.Packed.{monitors_in, objects_in, IsStored};

    ghost Value = { Stored };

    ghost view = { λ s. record { objects = objects_in s.region.words s.directory.items; monitors = monitors_in s.region.words s.directory.items; size = length s.region.words } };

    ghost invariant = { λ s. IsStored s.region.words s.region.carved s.directory.items (vec_capacity s.directory) };
}

impl Store {
    /// No objects, in a region of fewer than 2^27 words, none of which are carved. This takes all the memory that the
    /// store ever needs.
    pub fn new(alloc: Global, region: Region) -> Result<Store, OutOfMemory>
        requires whole { region.carved ≡ 0 }
        requires small { length region.words < 2 ^ 27 }
        ensures { IfOk result (λ store. store ≡ record { objects = []; monitors = []; size = length region.words }) }
    {
        let directory = Vec::with_capacity(alloc, region.size() as usize / 2)?;
        Ok(Store { region, directory })
    }

    /// How many words the objects take.
    pub fn used(&self) -> u32
        ensures words { result ≡ words self.now.objects }
        ensures few { 2 * length self.now.objects ≤ result }
    {
        self.region.size() - self.region.left()
    }

    /// How many objects there are.
    pub fn count(&self) -> u32
        ensures is { result ≡ length self.now.objects }
        ensures monitors { result ≡ length self.now.monitors }
    {
        self.directory.len() as u32
    }

    /// How many words are left.
    pub fn left(&self) -> u32
        ensures { result + words self.now.objects ≡ self.now.size }
    {
        self.region.left()
    }

    /// Makes an object, all its places 0, and says its number, or answers `None` where its words are missing.
    pub fn add(&mut self, sort: ObjectKind, class: u32, len: u32) -> Option<u32>
        ensures missing { IfNone result (self.old.size < words self.old.objects + words_needed sort len) }
        ensures refused { IfNone result (self.new ≡ self.old) }
        ensures fits { OnSome result (words self.old.objects + words_needed sort len ≤ self.old.size) }
        ensures number { IfSome result (λ n. n ≡ length self.old.objects) }
        ensures few { IfSome result (λ n. n < 2 ^ 26) }
        ensures added { OnSome result (self.new ≡ record { objects = self.old.objects ++ zeros sort class len ∷ []; monitors = self.old.monitors ++ free ∷ []; size = self.old.size }) }
    {
        let number = self.directory.len() as u32;
        let at = place(&mut self.region, sort, class, len)?;
        match self.directory.push(at) {
            Ok(()) => {}
            Err(_) => unreachable!(),
        }
        Some(number)
    }

    /// The number at a place of an object.
    pub fn number(&self, object: u32, place: u32) -> u64
        requires { place < length (object_at self.now.objects object).contents }
        ensures number { result ≡ number_at self.now.objects object place }
        ensures fits { result < 2 ^ bits (object_at self.now.objects object).sort }
    {
        number_in(&self.region, &self.directory, object, place)
    }

    /// Puts a number in a place of an object, which keeps the low bits.
    pub fn put(&mut self, object: u32, place: u32, value: u64)
        requires { place < length (object_at self.old.objects object).contents }
        ensures { self.new ≡ record self.old { objects = written self.old.objects object place value } }
    {
        put_in(&mut self.region, &self.directory, object, place, value);
    }

    /// The sort of an object.
    pub fn kind_of(&self, object: u32) -> ObjectKind
        requires { object < length self.now.objects }
        ensures { result ≡ (object_at self.now.objects object).sort }
    {
        sort_in(&self.region, &self.directory, object)
    }

    /// The number of the class of an object or an array.
    pub fn class_of(&self, object: u32) -> u32
        requires { object < length self.now.objects }
        ensures { result ≡ (object_at self.now.objects object).class }
    {
        class_in(&self.region, &self.directory, object)
    }

    /// How many fields, items or units an object has.
    pub fn length(&self, object: u32) -> u32
        requires { object < length self.now.objects }
        ensures length { result ≡ length (object_at self.now.objects object).contents }
        ensures few { result < 2 ^ 30 }
    {
        length_in(&self.region, &self.directory, object)
    }

    /// The monitor of an object.
    pub fn monitor(&self, object: u32) -> Monitor
        requires { object < length self.now.objects }
        ensures { slice_get self.now.monitors object ≡ Some result }
    {
        monitor_in(&self.region, &self.directory, object)
    }

    /// Puts a monitor in its place.
    pub fn set_monitor(&mut self, object: u32, monitor: Monitor)
        requires there { object < length self.old.objects }
        requires owner { IfSome monitor.owner (λ thread. thread < 64) }
        requires count { monitor.count ≤ 2 ^ 32 }
        ensures { self.new ≡ record self.old { monitors = slice_set self.old.monitors object monitor } }
    {
        set_monitor_in(&mut self.region, &self.directory, object, monitor);
    }

    /// Gives the region back.
    pub fn give_up(self) -> Region
        ensures { length result.words ≡ self.size }
    {
        let Store { region, directory } = self;
        drop(directory);
        region
    }
}
