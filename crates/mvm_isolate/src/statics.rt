ghost use Rattle.std.specs.Prelude.{◌≡◌, ℕ, List, Some};
ghost use Rattle.mvm_mirror.specs.Seen.{slot_in};
ghost use Rattle.mvm_isolate.specs.Initialise.{static_set};
ghost use Rattle.mvm_isolate.specs.Numbered.{class_at, name_at, named, IsClass, IsSlot};
ghost use Rattle.mvm_isolate.specs.Sound.{Grows};
ghost use Rattle.mvm_isolate.specs.Values.{items_by, narrowed};

use crate::isolate::Isolate;
use mvm_base::{Name, Word};
use mvm_heap::{ItemKind, bits_of, item_of};
use mvm_layout::pool::same_text;

/// What a variable of this descriptor holds (JVM Specification 4.3.2).
#[tactic(auto, unfolding(crate::specs::Values::items_by))]
pub fn items_by(desc: &Name) -> ItemKind
    ensures { result ≡ items_by desc.now }
{
    let units = desc.units();
    if same_text(units, b"Z") {
        ItemKind::Boolean
    } else if same_text(units, b"B") {
        ItemKind::Byte
    } else if same_text(units, b"C") {
        ItemKind::Char
    } else if same_text(units, b"S") {
        ItemKind::Short
    } else if same_text(units, b"I") {
        ItemKind::Int
    } else if same_text(units, b"J") {
        ItemKind::Long
    } else {
        ItemKind::Ref
    }
}

/// A value as a variable of this descriptor keeps it: of a small number the low bits, of a boolean the lowest (JVM Specification 2.3.4, 2.11.1).
#[tactic(auto, unfolding(crate::specs::Values::narrowed))]
pub fn narrowed(desc: &Name, value: Word) -> Word
    ensures { result ≡ narrowed desc.now value }
{
    item_of(items_by(desc), bits_of(value))
}

impl Isolate {
    /// The value of a static field of the class of a number. It takes no memory.
    pub fn get_static(&self, mirror: u32, slot: u32) -> Word
        requires class { IsClass self.now mirror }
        requires slot { IsSlot self.now mirror slot }
        ensures { (name desc : List ℕ) → slot_in name desc (class_at self.now mirror) ≡ Some slot → result ≡ (named self.now).classes.statics (name_at self.now mirror) name desc }
    {
        let _class = self.mirrors.class(mirror);
        self.mirrors.get_static(mirror, slot)
    }

    /// Gives a static field of the class of a number a value, narrowed as its descriptor wants it. It takes no memory.
    pub fn set_static(&mut self, mirror: u32, slot: u32, desc: &Name, value: Word)
        requires class { IsClass self.old mirror }
        requires slot { IsSlot self.old mirror slot }
        ensures named { (name : List ℕ) → slot_in name desc.now (class_at self.old mirror) ≡ Some slot → named self.new ≡ static_set (name_at self.old mirror) name desc.now value (named self.old) }
        ensures env { self.new.env ≡ self.old.env }
        ensures grows { Grows self.old self.new }
    {
        let _class = self.mirrors.class(mirror);
        self.mirrors.put_static(mirror, slot, narrowed(desc, value));
    }
}
