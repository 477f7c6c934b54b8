ghost use Rattle.std.specs.Prelude.{◌≡◌, ◌≢◌, ◌+◌, ◌<◌, ◌≤◌, ◌^◌, length, IfOk, IfSome, OnErr, Some};
ghost use Rattle.mvm_base.specs.Answers.{Gives};
ghost use Rattle.mvm_heap.specs.Heap.{number_at, object_at, words};
ghost use Rattle.mvm_heap.specs.Sorts.{word_of};
ghost use Rattle.mvm_heap.specs.declared.kind.ObjectKind.TheVariants.{Text};
ghost use Rattle.mvm_isolate.specs.Allocated.{made_or, stopped_alloc};
ghost use Rattle.mvm_isolate.specs.Isolate.{new_array, new_object, new_text, with_number};
ghost use Rattle.mvm_isolate.specs.Monitors.{monitor_at, with_monitor};
ghost use Rattle.mvm_isolate.specs.Numbered.{name_at, named, shape_at, IsArray, IsClass};
ghost use Rattle.mvm_isolate.specs.Sound.{Grows, IsMonitor};

use crate::isolate::Isolate;
use crate::stop::Stop;
use crate::types::items_of;
use mvm_base::{Kind, Word};
use mvm_heap::{AllocFault, Monitor, ObjectKind};
use mvm_native::Thrown;

/// What an attempt comes to where an object is not made.
fn stopped_alloc(fault: AllocFault) -> Stop
    ensures { result ≡ stopped_alloc fault }
{
    match fault {
        AllocFault::Full => Stop::Throw(Thrown::OutOfMemoryError),
        AllocFault::OutOfMemory => Stop::OutOfMemory,
    }
}

/// What an attempt comes to where the heap made an object, or did not.
pub(crate) fn made_or(made: Result<u32, AllocFault>) -> Result<u32, Stop>
    ensures { result ≡ made_or made }
{
    match made {
        Ok(object) => Ok(object),
        Err(fault) => Err(stopped_alloc(fault)),
    }
}

impl Isolate {
    /// How many objects there are. They are numbered from 0.
    #[tactic(auto, unfolding(crate::specs::Numbered::named), using(mvm_native::proofs::Unclassed::unclassed_length))]
    pub fn count(&self) -> u32
        ensures is { result ≡ length (named self.now).heap.objects }
        // Each has a monitor.
        ensures monitors { result ≡ length (named self.now).heap.monitors }
    {
        self.env.heap.count()
    }

    /// The sort of an object.
    #[tactic(auto, unfolding(crate::specs::Numbered::named), using(mvm_native::proofs::Unclassed::unclassed_length, mvm_native::proofs::Unclassed::unclassed_sort))]
    pub fn kind_of(&self, object: u32) -> ObjectKind
        requires { object < length (named self.now).heap.objects }
        ensures { result ≡ (object_at (named self.now).heap.objects object).sort }
    {
        self.env.heap.kind_of(object)
    }

    /// How many fields, items or units an object has.
    #[tactic(auto, unfolding(crate::specs::Numbered::named), using(mvm_native::proofs::Unclassed::unclassed_length, mvm_native::proofs::Unclassed::unclassed_contents))]
    pub fn length(&self, object: u32) -> u32
        requires { object < length (named self.now).heap.objects }
        ensures length { result ≡ length (object_at (named self.now).heap.objects object).contents }
        ensures few { result < 2 ^ 30 }
    {
        self.env.heap.length(object)
    }

    /// The number at a place of an object.
    #[tactic(auto, unfolding(crate::specs::Numbered::named), using(mvm_native::proofs::Unclassed::unclassed_contents, mvm_native::proofs::Unclassed::unclassed_number))]
    pub fn number(&self, object: u32, place: u32) -> u64
        requires { place < length (object_at (named self.now).heap.objects object).contents }
        ensures { result ≡ number_at (named self.now).heap.objects object place }
    {
        self.env.heap.number(object, place)
    }

    /// A unit of a text.
    #[tactic(auto, unfolding(crate::specs::Numbered::named), using(mvm_native::proofs::Unclassed::unclassed_contents, mvm_native::proofs::Unclassed::unclassed_number, mvm_native::proofs::Unclassed::unclassed_sort))]
    pub fn unit(&self, object: u32, place: u32) -> u16
        requires place { place < length (object_at (named self.now).heap.objects object).contents }
        requires text { (object_at (named self.now).heap.objects object).sort ≡ Text }
        ensures { result ≡ number_at (named self.now).heap.objects object place }
    {
        self.env.heap.unit(object, place)
    }

    /// What a field of an object holds, as a value of this kind.
    #[tactic(auto, unfolding(crate::specs::Numbered::named), using(mvm_native::proofs::Unclassed::unclassed_contents, mvm_native::proofs::Unclassed::unclassed_number))]
    pub fn field(&self, object: u32, place: u32, kind: Kind) -> Word
        requires { place < length (object_at (named self.now).heap.objects object).contents }
        ensures { result ≡ word_of kind (number_at (named self.now).heap.objects object place) }
    {
        self.env.heap.get_field(object, place, kind)
    }

    /// The monitor of an object.
    #[tactic(auto, unfolding(crate::specs::Numbered::named), using(crate::proofs::Owning::monitor_kept, mvm_native::proofs::Unclassed::unclassed_length))]
    pub fn monitor(&self, object: u32) -> Monitor
        requires { object < length (named self.now).heap.objects }
        ensures is { monitor_at (named self.now) object ≡ Some result }
        // Its owner is one of 64 threads, and its count at most 2^32.
        ensures kept { IsMonitor result }
    {
        self.env.heap.monitor(object)
    }

    /// Puts a monitor in its place: its owner, if any, is one of 64 threads, and its count at most 2^32. It takes no memory.
    #[tactic(auto, unfolding(crate::specs::Numbered::named), using(mvm_native::proofs::Unclassed::unclassed_length))]
    pub fn set_monitor(&mut self, object: u32, monitor: Monitor)
        requires there { object < length (named self.old).heap.objects }
        requires owner { IfSome monitor.owner (λ thread. thread < 64) }
        requires count { monitor.count ≤ 2 ^ 32 }
        ensures named { named self.new ≡ with_monitor object monitor (named self.old) }
        ensures links { self.new.env.links ≡ self.old.env.links }
        ensures grows { Grows self.old self.new }
    {
        self.env.heap.set_monitor(object, monitor);
    }

    /// How many words of the heap are left.
    #[tactic(auto, unfolding(crate::specs::Numbered::named), using(mvm_native::proofs::Unclassed::unclassed_words))]
    pub fn words_left(&self) -> u32
        ensures { result + words (named self.now).heap.objects ≡ (named self.now).heap.size }
    {
        self.env.heap.left()
    }

    /// An object of a class with so many fields, each 0 or null. It takes no memory of the machine's own.
    ///
    /// # Errors
    ///
    /// It throws `OutOfMemoryError` where words of the heap are missing.
    pub fn new_object(&mut self, mirror: u32, fields: u32) -> Result<u32, Stop>
        requires { IsClass self.old mirror }
        ensures does { Gives result (new_object (name_at self.old mirror) fields (named self.old)) (named self.new) }
        ensures there { IfOk result (λ object. object < length (named self.new).heap.objects) }
        ensures err { OnErr result (named self.new ≡ named self.old) }
        ensures links { self.new.env.links ≡ self.old.env.links }
        ensures grows { Grows self.old self.new }
    {
        made_or(self.env.heap.alloc_object(mirror, fields))
    }

    /// Puts a number in a place of an object or an array, which keeps the low bits. It takes no memory.
    #[tactic(auto, unfolding(crate::specs::Numbered::named), using(mvm_native::proofs::Unclassed::unclassed_contents, mvm_native::proofs::Unclassed::unclassed_sort))]
    pub fn set_number(&mut self, object: u32, place: u32, number: u64)
        requires place { place < length (object_at (named self.old).heap.objects object).contents }
        requires sort { (object_at (named self.old).heap.objects object).sort ≢ Text }
        ensures named { named self.new ≡ with_number object place number (named self.old) }
        ensures links { self.new.env.links ≡ self.old.env.links }
        ensures grows { Grows self.old self.new }
    {
        self.env.heap.put(object, place, number);
    }

    /// An array of the array class of a number, of so many items, each 0 or null. It takes no memory of the machine's own.
    ///
    /// # Errors
    ///
    /// It throws `OutOfMemoryError` where words of the heap are missing.
    pub fn new_array(&mut self, row: u32, count: u32) -> Result<u32, Stop>
        requires { IsArray self.old row }
        ensures does { Gives result (new_array (shape_at self.old row) count (named self.old)) (named self.new) }
        ensures there { IfOk result (λ object. object < length (named self.new).heap.objects) }
        ensures err { OnErr result (named self.new ≡ named self.old) }
        ensures links { self.new.env.links ≡ self.old.env.links }
        ensures grows { Grows self.old self.new }
    {
        let kind = items_of(self.arrays.shape(row));
        made_or(self.env.heap.alloc_array(row, kind, count))
    }

    /// A text of these units. It takes no memory of the machine's own.
    ///
    /// # Errors
    ///
    /// It throws `OutOfMemoryError` where words of the heap are missing.
    pub fn new_text(&mut self, units: &[u16]) -> Result<u32, Stop>
        requires { length units.now < 2 ^ 32 }
        ensures does { Gives result (new_text units.now (named self.old)) (named self.new) }
        ensures there { IfOk result (λ object. object < length (named self.new).heap.objects) }
        ensures err { OnErr result (named self.new ≡ named self.old) }
        ensures links { self.new.env.links ≡ self.old.env.links }
        ensures grows { Grows self.old self.new }
    {
        made_or(self.env.heap.alloc_text(units))
    }
}
