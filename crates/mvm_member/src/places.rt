ghost use Rattle.std.specs.Prelude.{◌≡◌, ◌≤◌, ◌^◌, ℕ, Some, IfSome, IfNone};
ghost use Rattle.mvm_mirror.specs.Statics.{slot_of};
ghost use Rattle.mvm_set.specs.Members.{field_at};
ghost use Rattle.mvm_table.specs.Slots.{instance_fields};
ghost use Rattle.mvm_member.specs.Members.{own_place, place_of};
ghost use Rattle.mvm_member.specs.Slots.{slot_found};

use crate::count::{fields_before, slot_at, supers};
use crate::find::{field_at, fields_of};
use mvm_base::Name;
use mvm_set::{Class, Own, Shared};

/// How many instance fields these classes declare (JVM Specification 4.5): `None` where there are 2^32 or more.
pub fn instance_fields(owns: &[Shared<Own>]) -> Option<u32>
    ensures some { IfSome result (λ count. count ≡ instance_fields owns.now) }
    ensures none { IfNone result (2 ^ 32 ≤ instance_fields owns.now) }
{
    let mut count: u32 = 0;
    for i in 0..owns.len() {
        match count.checked_add(u32::from(owns[i].get().instance_fields())) {
            Some(sum) => count = sum,
            None => return None,
        }
    }
    Some(count)
}

/// How many fields an object of a class has (JVM Specification 2.5.3, 4.5): `None` where there are 2^32 or more.
pub fn field_count(class: &Class) -> Option<u32>
    ensures some { IfSome result (λ count. count ≡ instance_fields class.now.line) }
    ensures none { IfNone result (2 ^ 32 ≤ instance_fields class.now.line) }
{
    instance_fields(class.line())
}

/// The place of a field among those of its own sort that its class declares.
fn own_place(class: &Class, name: &Name, desc: &Name) -> Option<u16>
    ensures { result ≡ own_place class.now.file.fields (field_at name.now desc.now class.now.file) }
{
    match field_at(class, name, desc) {
        Some(index) => fields_before(fields_of(class), index),
        None => None,
    }
}

/// Where the value of an instance field that a class declares stands in an object (JVM Specification 2.5.3, 4.5): behind those of its superclasses, in
/// the order of its file. `None` where the class declares no field of this name and descriptor, or where the place is not below 2^32.
#[tactic(auto, unfolding(crate::specs::Members::place_of))]
pub fn place_of(class: &Class, name: &Name, desc: &Name) -> Option<u32>
    ensures some { IfSome result (λ place. place_of name.now desc.now class.now ≡ Some place) }
    ensures none { IfNone result ((place : ℕ) → place_of name.now desc.now class.now ≡ Some place → 2 ^ 32 ≤ place) }
{
    match own_place(class, name, desc) {
        Some(own) => match instance_fields(supers(class.line())) {
            Some(above) => above.checked_add(u32::from(own)),
            None => None,
        },
        None => None,
    }
}

/// How many static fields stand before the field of a name and descriptor that a class declares, if that is static.
fn slot_found(class: &Class, name: &Name, desc: &Name) -> Option<u16>
    ensures { result ≡ slot_found class.now.file.fields (field_at name.now desc.now class.now.file) }
{
    match field_at(class, name, desc) {
        Some(index) => slot_at(fields_of(class), index),
        None => None,
    }
}

/// The slot of a static field that a class declares (JVM Specification 4.5), its place among the static fields of its file: `None` where the class
/// declares no static field of this name and descriptor.
pub fn static_place(class: &Class, name: &Name, desc: &Name) -> Option<u32>
    ensures { result ≡ slot_of name.now desc.now class.now.file }
{
    // No two of them have one name and descriptor.
    let _fields = fields_of(class);
    match slot_found(class, name, desc) {
        Some(slot) => Some(u32::from(slot)),
        None => None,
    }
}
