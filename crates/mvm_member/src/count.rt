ghost use Rattle.std.specs.Prelude.{◌≡◌, ◌<◌, ◌^◌, length};
ghost use Rattle.mvm_select.specs.MostSpecific.{supers};
ghost use Rattle.mvm_set.specs.FieldPlaces.{count_of, fields_before, is_of};
ghost use Rattle.mvm_member.specs.Slots.{slot_at};

use mvm_classfile::Member;
use mvm_layout::flags::is_static;
use mvm_set::{Own, Shared};

/// Whether a field is of a sort: static, or not.
fn is_of(statics: bool, field: &Member) -> bool
    ensures { result ≡ is_of statics field.now }
{
    if statics {
        is_static(field.flags)
    } else {
        !is_static(field.flags)
    }
}

/// How many of these fields are static, or are not.
fn count_of(statics: bool, fields: &[Member]) -> u16
    requires { length fields.now < 2 ^ 16 }
    ensures { result ≡ count_of statics fields.now }
{
    let mut count: u16 = 0;
    for i in 0..fields.len() {
        if is_of(statics, &fields[i]) {
            count += 1;
        }
    }
    count
}

/// How many fields of its own sort stand before the field of a place.
#[tactic(auto, unfolding(mvm_set::specs::FieldPlaces::fields_before))]
pub(crate) fn fields_before(fields: &[Member], index: u16) -> Option<u16>
    requires { length fields.now < 2 ^ 16 }
    ensures { result ≡ fields_before fields.now index }
{
    let index = usize::from(index);
    match fields.get(index) {
        Some(field) => Some(count_of(is_static(field.flags), &fields[..index])),
        None => None,
    }
}

/// How many static fields stand before the static field of a place.
pub(crate) fn slot_at(fields: &[Member], index: u16) -> Option<u16>
    requires { length fields.now < 2 ^ 16 }
    ensures { result ≡ slot_at fields.now index }
{
    let index = usize::from(index);
    match fields.get(index) {
        Some(field) => {
            if is_static(field.flags) {
                Some(count_of(true, &fields[..index]))
            } else {
                None
            }
        }
        None => None,
    }
}

/// The superclasses, in a line of a class and its superclasses.
pub(crate) fn supers(line: &[Shared<Own>]) -> &[Shared<Own>]
    ensures { result.now ≡ supers line.now }
{
    match line.split_first() {
        Some((_, supers)) => supers,
        None => line,
    }
}
