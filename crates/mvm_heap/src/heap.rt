ghost use Rattle.std.specs.Prelude.{◌≡◌, ◌≢◌, ◌+◌, ◌<◌, ◌≤◌, ◌^◌, ◌++◌, [], ◌∷◌, length, slice_get, slice_set, IfOk, IfSome, OnOk, Some, Err};
ghost use Rattle.mvm_heap.specs.Heap.{intern, interned, item_at, noted, number_at, object_at, placed, text, words, written, zeros, Allocates, HasRoom, IsArray, Takes};
ghost use Rattle.mvm_heap.specs.Objects.{Held, Spare, State};
ghost use Rattle.mvm_heap.specs.Sorts.{bits_of, word_of, words_needed};
ghost use Rattle.mvm_heap.specs.declared.kind.AllocFault.TheVariants.{OutOfMemory as Refused};
ghost use Rattle.mvm_heap.specs.declared.kind.ItemKind.TheVariants.{Char};
ghost use Rattle.mvm_heap.specs.declared.kind.ObjectKind.TheVariants.{Array, Object, Text};

use crate::index::{Entry, bucket_of, find};
use crate::kind::{AllocFault, ItemKind, ObjectKind};
use crate::store::Store;
use crate::text::write_units;
use crate::values::{bits_of, value_of, word_of};
use mvm_base::{Kind, OutOfMemory, Word};
use mvm_region::{Monitor, Region};
use std::alloc::Global;
use std::marker::Model;

/// Objects, arrays and texts by number, packed in one region. Nothing is given back before the whole heap is.
#[derive(Debug, Drop)]
pub struct Heap {
    store: Store,
    entries: Vec<Entry>,
    heads: Vec<u32>,
}

impl Model for Heap {
    ghost use Rattle.std.specs.Prelude.{◌-◌, ◌^◌, length, vec_capacity};
    ghost use Rattle.mvm_heap.specs.Objects.{Held};
    ghost use Rattle.mvm_heap.specs.Index.{numbers, IsIndexed};

    ghost Value = { Held };

    ghost view = { λ h. record {
      state = record { objects = h.store.objects; monitors = h.store.monitors; texts = numbers h.entries.items; size = h.store.size };
      spare = record { objects = 2 ^ 32; texts = vec_capacity h.entries - length h.entries.items; words = 2 ^ 32 };
    } };

    ghost invariant = { λ h. IsIndexed h.store.objects h.entries.items h.heads.items };
}

impl Heap {
    /// A heap without objects over a region of fewer than 2^27 words, none of which are carved.
    pub fn new(alloc: Global, region: Region) -> Result<Heap, OutOfMemory>
        requires whole { region.carved ≡ 0 }
        requires small { length region.words < 2 ^ 27 }
        ensures { IfOk result (λ heap. heap.state ≡ record { objects = []; monitors = []; texts = []; size = length region.words }) }
    {
        let heads = vec![in alloc; 0; region.size() as usize / 8 + 1]?;
        let store = Store::new(alloc, region)?;
        Ok(Heap {
            store,
            entries: Vec::new(alloc),
            heads,
        })
    }

    /// Makes room for so many objects of together so many words, among them so many interned texts.
    pub fn reserve(&mut self, objects: u32, texts: u32, words: u32) -> Result<(), OutOfMemory>
        ensures same { self.new.state ≡ self.old.state }
        ensures ok { OnOk result (HasRoom self.new.spare objects texts words) }
    {
        self.entries.reserve(texts as usize)?;
        Ok(())
    }

    /// How many objects there are. They are numbered from 0.
    pub fn count(&self) -> u32
        ensures is { result ≡ length self.now.state.objects }
        // Each has a monitor.
        ensures monitors { result ≡ length self.now.state.monitors }
    {
        self.store.count()
    }

    /// How many words the objects take.
    pub fn used(&self) -> u32
        ensures { result ≡ words self.now.state.objects }
    {
        self.store.used()
    }

    /// How many words are left.
    pub fn left(&self) -> u32
        ensures { result + words self.now.state.objects ≡ self.now.state.size }
    {
        self.store.left()
    }

    /// An object with so many fields, all 0 or null. It takes no memory.
    pub fn alloc_object(&mut self, class: u32, fields: u32) -> Result<u32, AllocFault>
        ensures does { Allocates result (placed (zeros Object class fields) self.old.state) self.old.state self.new.state }
        ensures there { IfOk result (λ n. n < length self.new.state.objects) }
        ensures always { result ≢ Err Refused }
        ensures spare { self.new.spare ≡ self.old.spare }
    {
        self.alloc(ObjectKind::Object, class, fields)
    }

    /// An array of so many items, all 0 or null. It takes no memory.
    pub fn alloc_array(&mut self, class: u32, kind: ItemKind, count: u32) -> Result<u32, AllocFault>
        ensures does { Allocates result (placed (zeros (Array kind) class count) self.old.state) self.old.state self.new.state }
        ensures there { IfOk result (λ n. n < length self.new.state.objects) }
        ensures always { result ≢ Err Refused }
        ensures spare { self.new.spare ≡ self.old.spare }
    {
        self.alloc(ObjectKind::Array(kind), class, count)
    }

    fn alloc(&mut self, sort: ObjectKind, class: u32, len: u32) -> Result<u32, AllocFault>
        ensures does { Allocates result (placed (zeros sort class len) self.old.state) self.old.state self.new.state }
        ensures there { IfOk result (λ n. n < length self.new.state.objects) }
        ensures always { result ≢ Err Refused }
        ensures spare { self.new.spare ≡ self.old.spare }
    {
        let Some(number) = self.store.add(sort, class, len) else {
            return Err(AllocFault::Full);
        };
        Ok(number)
    }

    /// The number at a place of an object.
    pub fn number(&self, object: u32, place: u32) -> u64
        requires { place < length (object_at self.now.state.objects object).contents }
        ensures { result ≡ number_at self.now.state.objects object place }
    {
        self.store.number(object, place)
    }

    /// What a field holds, as a value of this kind. A field that was never set reads as 0 or null of each kind.
    pub fn get_field(&self, object: u32, slot: u32, kind: Kind) -> Word
        requires { slot < length (object_at self.now.state.objects object).contents }
        ensures { result ≡ word_of kind (number_at self.now.state.objects object slot) }
    {
        word_of(kind, self.number(object, slot))
    }

    /// What stands at a place of an array, as a value.
    pub fn get_item(&self, object: u32, place: u32) -> Word
        requires { place < length (object_at self.now.state.objects object).contents }
        ensures { result ≡ item_at self.now.state.objects object place }
    {
        value_of(self.sort_at(object, place), self.number(object, place))
    }

    fn sort_at(&self, object: u32, place: u32) -> ObjectKind
        requires { place < length (object_at self.now.state.objects object).contents }
        ensures { result ≡ (object_at self.now.state.objects object).sort }
    {
        self.store.kind_of(object)
    }

    /// Puts a number in a place of an object or an array, which keeps the low bits.
    pub fn put(&mut self, object: u32, place: u32, value: u64)
        requires place { place < length (object_at self.old.state.objects object).contents }
        requires sort { (object_at self.old.state.objects object).sort ≢ Text }
        ensures state { self.new.state ≡ record self.old.state { objects = written self.old.state.objects object place value } }
        ensures spare { self.new.spare ≡ self.old.spare }
    {
        self.store.put(object, place, value);
    }

    /// Puts a value in a field.
    pub fn set_field(&mut self, object: u32, slot: u32, value: Word)
        requires place { slot < length (object_at self.old.state.objects object).contents }
        requires sort { (object_at self.old.state.objects object).sort ≡ Object }
        ensures state { self.new.state ≡ record self.old.state { objects = written self.old.state.objects object slot (bits_of value) } }
        ensures spare { self.new.spare ≡ self.old.spare }
    {
        self.put(object, slot, bits_of(value));
    }

    /// Puts a value in an array, of which an item keeps the low bits.
    pub fn set_item(&mut self, object: u32, place: u32, value: Word)
        requires place { place < length (object_at self.old.state.objects object).contents }
        requires sort { IsArray (object_at self.old.state.objects object).sort }
        ensures state { self.new.state ≡ record self.old.state { objects = written self.old.state.objects object place (bits_of value) } }
        ensures spare { self.new.spare ≡ self.old.spare }
    {
        self.put(object, place, bits_of(value));
    }

    /// What an object is.
    pub fn kind_of(&self, object: u32) -> ObjectKind
        requires { object < length self.now.state.objects }
        ensures { result ≡ (object_at self.now.state.objects object).sort }
    {
        self.store.kind_of(object)
    }

    /// The number of the class of an object or an array.
    pub fn class_of(&self, object: u32) -> u32
        requires { object < length self.now.state.objects }
        ensures { result ≡ (object_at self.now.state.objects object).class }
    {
        self.store.class_of(object)
    }

    /// How many fields, items or units an object has.
    pub fn length(&self, object: u32) -> u32
        requires { object < length self.now.state.objects }
        ensures length { result ≡ length (object_at self.now.state.objects object).contents }
        ensures few { result < 2 ^ 30 }
    {
        self.store.length(object)
    }

    /// A unit of a text.
    pub fn unit(&self, object: u32, place: u32) -> u16
        requires place { place < length (object_at self.now.state.objects object).contents }
        requires text { (object_at self.now.state.objects object).sort ≡ Text }
        ensures { result ≡ number_at self.now.state.objects object place }
    {
        self.store.number(object, place) as u16
    }

    /// An item of an array of chars.
    pub fn char_item(&self, object: u32, place: u32) -> u16
        requires place { place < length (object_at self.now.state.objects object).contents }
        requires chars { (object_at self.now.state.objects object).sort ≡ Array Char }
        ensures { result ≡ number_at self.now.state.objects object place }
    {
        self.store.number(object, place) as u16
    }

    /// The monitor of an object.
    pub fn monitor(&self, object: u32) -> Monitor
        requires { object < length self.now.state.objects }
        ensures { slice_get self.now.state.monitors object ≡ Some result }
    {
        self.store.monitor(object)
    }

    /// Puts a monitor in its place: its owner, if any, is one of 64 threads, and its count at most 2^32.
    pub fn set_monitor(&mut self, object: u32, monitor: Monitor)
        requires there { object < length self.old.state.objects }
        requires owner { IfSome monitor.owner (λ thread. thread < 64) }
        requires count { monitor.count ≤ 2 ^ 32 }
        ensures state { self.new.state ≡ record self.old.state { monitors = slice_set self.old.state.monitors object monitor } }
        ensures spare { self.new.spare ≡ self.old.spare }
    {
        self.store.set_monitor(object, monitor);
    }

    /// Gives the region back.
    pub fn give_up(self) -> Region
        ensures { length result.words ≡ self.state.size }
    {
        let Heap {
            store,
            entries,
            heads,
        } = self;
        drop(entries);
        drop(heads);
        store.give_up()
    }

    /// A text of these units. It takes no memory.
    pub fn alloc_text(&mut self, units: &[u16]) -> Result<u32, AllocFault>
        requires { length units.now < 2 ^ 32 }
        ensures does { Allocates result (placed (text units.now) self.old.state) self.old.state self.new.state }
        ensures there { IfOk result (λ n. n < length self.new.state.objects) }
        ensures always { result ≢ Err Refused }
        ensures spare { self.new.spare ≡ self.old.spare }
    {
        match self.add_text(units) {
            Ok(number) => Ok(number),
            Err(fault) => Err(fault),
        }
    }

    fn add_text(&mut self, units: &[u16]) -> Result<u32, AllocFault>
        requires { length units.now < 2 ^ 32 }
        ensures does { Allocates result (placed (text units.now) self.old.state) self.old.state self.new.state }
        ensures always { result ≢ Err Refused }
        ensures spare { self.new.spare ≡ self.old.spare }
        ensures there { IfOk result (λ n. n < length self.new.state.objects) }
        ensures last { IfOk result (λ n. length self.new.state.texts ≤ n) }
        ensures object { IfOk result (λ n. object_at self.new.state.objects n ≡ text units.now) }
        ensures small { IfOk result (λ n. n < 2 ^ 26) }
    {
        let Some(number) = self.store.add(ObjectKind::Text, 0, units.len() as u32) else {
            return Err(AllocFault::Full);
        };
        write_units(&mut self.store, number, units);
        Ok(number)
    }

    /// The interned text of these units, if there is one.
    pub fn interned(&self, units: &[u16]) -> Option<u32>
        ensures is { result ≡ interned self.now.state.objects self.now.state.texts units.now }
        ensures there { IfSome result (λ n. n < length self.now.state.objects) }
    {
        find(&self.store, &self.entries, &self.heads, units)
    }

    /// The one interned text of these units. It can want memory where no text of these units is interned yet, and
    /// none is left of the room for interned texts.
    pub fn intern(&mut self, units: &[u16]) -> Result<u32, AllocFault>
        requires { length units.now < 2 ^ 32 }
        ensures does { Allocates result (intern units.now self.old.state) self.old.state self.new.state }
        ensures there { IfOk result (λ n. n < length self.new.state.objects) }
        ensures sort { IfOk result (λ n. (object_at self.new.state.objects n).sort ≡ Text) }
        ensures units { IfOk result (λ n. (object_at self.new.state.objects n).contents ≡ units.now) }
        ensures takes { OnOk result (Takes self.old.spare self.new.spare 1 1 (words_needed Text (length units.now))) }
        ensures within { HasRoom self.old.spare 1 1 (words_needed Text (length units.now)) → result ≢ Err Refused }
    {
        match find(&self.store, &self.entries, &self.heads, units) {
            Some(number) => Ok(number),
            None => self.intern_new(units),
        }
    }

    fn intern_new(&mut self, units: &[u16]) -> Result<u32, AllocFault>
        requires { length units.now < 2 ^ 32 }
        ensures does { Allocates result (noted (placed (text units.now) self.old.state)) self.old.state self.new.state }
        ensures there { IfOk result (λ n. n < length self.new.state.objects) }
        ensures object { IfOk result (λ n. object_at self.new.state.objects n ≡ text units.now) }
        ensures takes { OnOk result (Takes self.old.spare self.new.spare 1 1 (words_needed Text (length units.now))) }
        ensures within { HasRoom self.old.spare 1 1 (words_needed Text (length units.now)) → result ≢ Err Refused }
    {
        self.entries.reserve(1)?;
        let number = self.add_text(units)?;
        self.note(number, units);
        Ok(number)
    }

    /// Enters a text that is not interned yet.
    fn note(&mut self, number: u32, units: &[u16])
        requires there { number < length self.old.state.objects }
        requires last { length self.old.state.texts ≤ number }
        requires sort { object_at self.old.state.objects number ≡ text units.now }
        requires small { number < 2 ^ 26 }
        requires room { 1 ≤ self.old.spare.texts }
        ensures state { self.new.state ≡ record self.old.state { texts = self.old.state.texts ++ number ∷ [] } }
        ensures takes { Takes self.old.spare self.new.spare 0 1 0 }
    {
        let bucket = bucket_of(units, self.heads.len());
        let before = self.heads[bucket];
        let place = self.entries.len() as u32;
        match self.entries.push(Entry { number, before }) {
            Ok(()) => {}
            Err(_) => unreachable!(),
        }
        self.heads[bucket] = place + 1;
    }
}
