//! The place of a member of a name and descriptor in the file of a class.

ghost use Rattle.std.specs.Prelude.{◌≡◌, ◌<◌, ◌^◌, length};
ghost use Rattle.mvm_classfile.specs.Kept.{AreApart};
ghost use Rattle.mvm_layout.specs.Pool.{is_text, text};
ghost use Rattle.mvm_set.specs.Members.{field_at, is_member, member_from, method_at};

use mvm_base::{List, Name};
use mvm_classfile::{Item, Member};
use mvm_layout::pool::text;
use mvm_set::Class;

/// Whether an index has a text, and it is this one.
fn is_text(pool: &List<Item>, index: u16, wanted: &Name) -> bool
    ensures { result ≡ is_text wanted.now (text pool.now index) }
{
    match text(pool, index) {
        Some(found) => found.same(wanted),
        None => false,
    }
}

/// Whether a member has this name and descriptor.
fn is_member(pool: &List<Item>, name: &Name, desc: &Name, member: &Member) -> bool
    ensures { result ≡ is_member pool.now name.now desc.now member.now }
{
    is_text(pool, member.name, name) && is_text(pool, member.desc, desc)
}

/// The place of the first of these members that has this name and descriptor.
fn first_member(pool: &List<Item>, name: &Name, desc: &Name, members: &[Member]) -> Option<u16>
    requires { length members.now < 2 ^ 16 }
    ensures { result ≡ member_from 0 pool.now name.now desc.now members.now }
{
    for i in 0..members.len() {
        if is_member(pool, name, desc, &members[i]) {
            return Some(i as u16);
        }
    }
    None
}

/// The place of the one of these members that has this name and descriptor. It is looked for at the place of the hint first.
fn member_near(
    pool: &List<Item>,
    name: &Name,
    desc: &Name,
    members: &[Member],
    hint: Option<u16>,
) -> Option<u16>
    requires few { length members.now < 2 ^ 16 }
    requires apart { AreApart pool.now members.now }
    ensures { result ≡ member_from 0 pool.now name.now desc.now members.now }
{
    if let Some(index) = hint {
        if let Some(member) = members.get(usize::from(index)) {
            if is_member(pool, name, desc, member) {
                return hint;
            }
        }
    }
    first_member(pool, name, desc, members)
}

/// The fields of the file of a class.
#[tactic(auto, using(mvm_set::proofs::Counted::few_fields))]
pub(crate) fn fields_of(class: &Class) -> &[Member]
    ensures value { result.now ≡ class.now.file.fields }
    ensures few { length result.now < 2 ^ 16 }
    ensures apart { AreApart class.now.file.pool result.now }
{
    class.file().parts().fields.as_slice()
}

/// The methods of the file of a class.
#[tactic(auto, using(mvm_set::proofs::Counted::few_methods))]
pub(crate) fn methods_of(class: &Class) -> &[Member]
    ensures value { result.now ≡ class.now.file.methods }
    ensures few { length result.now < 2 ^ 16 }
    ensures apart { AreApart class.now.file.pool result.now }
{
    class.file().parts().methods.as_slice()
}

/// The place of the field of this name and descriptor that a class declares. The index of the first file of the class's line knows it. What it says is
/// tested on the class's file, since no clause says that this file is the first of the line.
#[tactic(auto, unfolding(mvm_set::specs::Members::field_at))]
pub(crate) fn field_at(class: &Class, name: &Name, desc: &Name) -> Option<u16>
    ensures { result ≡ field_at name.now desc.now class.now.file }
{
    let hint = match class.line().first() {
        Some(own) => own.get().field_at(name, desc),
        None => None,
    };
    let pool = &class.file().parts().pool;
    member_near(pool, name, desc, fields_of(class), hint)
}

/// The same of methods.
#[tactic(auto, unfolding(mvm_set::specs::Members::method_at))]
pub(crate) fn method_at(class: &Class, name: &Name, desc: &Name) -> Option<u16>
    ensures { result ≡ method_at name.now desc.now class.now.file }
{
    let hint = match class.line().first() {
        Some(own) => own.get().method_at(name, desc),
        None => None,
    };
    let pool = &class.file().parts().pool;
    member_near(pool, name, desc, methods_of(class), hint)
}
