ghost use Rattle.std.specs.Prelude.{◌≡◌, take, slice_get, IfSome};
ghost use Rattle.std.specs.Option.{option_copied};
ghost use Rattle.mvm_set.specs.FieldPlaces.{count_of};
ghost use Rattle.mvm_table.specs.Slots.{instance_fields, above, before, is_static_field, slot_of};

use mvm_classfile::{ClassFile, Member};
use mvm_layout::flags::is_static;
use mvm_set::{Class, Own, Shared, is_same};

/// How many instance fields these classes declare, if a usize can count them.
fn instance_fields(owns: &[Shared<Own>]) -> Option<usize>
    ensures { IfSome result (λ count. count ≡ instance_fields owns.now) }
{
    let mut count: usize = 0;
    for i in 0..owns.len() {
        match count.checked_add(usize::from(owns[i].get().instance_fields())) {
            Some(sum) => count = sum,
            None => return None,
        }
    }
    Some(count)
}

/// The superclasses of the class of a file, in a line where it stands.
fn above<'a>(file: &ClassFile, line: &'a [Shared<Own>]) -> &'a [Shared<Own>]
    ensures { result.now ≡ above file.now line.now }
{
    for i in 0..line.len() {
        if is_same(line[i].get().file(), file) {
            return &line[i + 1..];
        }
    }
    &line[..0]
}

fn is_static_field(field: Option<&Member>) -> bool
    ensures { result ≡ is_static_field (option_copied field.entry) }
{
    match field {
        Some(field) => is_static(field.flags),
        None => false,
    }
}

/// How many fields of its own sort stand before the field of a place in its file; all instance fields, where the file has no field of that
/// place.
#[tactic(auto, using(crate::proofs::FieldSlots::before_place, crate::proofs::FieldSlots::behind_all))]
fn before_in(holder: &Own, index: u16) -> u16
    ensures { result ≡ count_of (is_static_field (slice_get holder.now.file.fields index)) (take index holder.now.file.fields) }
{
    match holder.fields_before(index) {
        Some(before) => before,
        None => holder.instance_fields(),
    }
}

/// How many fields stand before a field in the list where its slot is its place, if a usize can count them.
fn before(class: &Class, holder: &Own, index: u16) -> Option<usize>
    ensures { IfSome result (λ count. count ≡ before class.now holder.now index (is_static_field (slice_get holder.now.file.fields index))) }
{
    let own = usize::from(before_in(holder, index));
    if is_static_field(holder.file().parts().fields.get(usize::from(index))) {
        Some(own)
    } else {
        instance_fields(above(holder.file(), class.line()))?.checked_add(own)
    }
}

/// The slot of a field of a holder above a class: of a static field its place among the static fields of its holder; of another its
/// place in the list of the instance fields of its holder's superclasses, farthest first, and then of its holder. None where it is not
/// below 2^32.
#[tactic(auto, unfolding(crate::specs::Slots::slot_of))]
pub(crate) fn slot_of(class: &Class, holder: &Own, index: u16) -> Option<u32>
    ensures { IfSome result (λ slot. slot ≡ slot_of class.now holder.now index) }
{
    let before = before(class, holder, index)?;
    if before > 0xFFFF_FFFF {
        None
    } else {
        Some(before as u32)
    }
}
