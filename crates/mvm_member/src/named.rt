ghost use Rattle.std.specs.Prelude.{◌≡◌};
ghost use Rattle.std.specs.Option.{option_copied};
ghost use Rattle.mvm_member.specs.Members.{field_named, member_named, method_named, named_in};

use mvm_base::Name;
use mvm_classfile::{ClassFile, Member};
use mvm_layout::pool::text;
use mvm_set::{MethodAt, own_name};
use mvm_table::FieldAt;
use std::marker::Model;

/// A field or a method: the class that declares it, its name, its descriptor, and its access flags (JVM Specification 4.5, 4.6).
#[derive(Drop)]
pub struct MemberName<'a> {
    class: &'a Name,
    name: &'a Name,
    desc: &'a Name,
    flags: u16,
}

impl<'a> Model for MemberName<'a> {
    ghost use Rattle.mvm_member.specs.Members.{MemberName as MemberNameOf};

    ghost Value = { MemberNameOf };

    ghost view = { λ m. record { class = m.class.now; name = m.name.now; desc = m.desc.now; flags = m.flags } };
}

impl<'a> MemberName<'a> {
    /// The name of the class that declares it.
    pub fn class(&self) -> &'a Name
        ensures { result.now ≡ self.now.class }
    {
        self.class
    }

    /// Its name.
    pub fn name(&self) -> &'a Name
        ensures { result.now ≡ self.now.name }
    {
        self.name
    }

    /// Its descriptor.
    pub fn desc(&self) -> &'a Name
        ensures { result.now ≡ self.now.desc }
    {
        self.desc
    }

    /// Its access flags.
    pub fn flags(&self) -> u16
        ensures { result ≡ self.now.flags }
    {
        self.flags
    }
}

/// A member by what is there of its names.
fn member_named<'a>(
    class: Option<&'a Name>,
    name: Option<&'a Name>,
    desc: Option<&'a Name>,
    flags: u16,
) -> Option<MemberName<'a>>
    ensures { result ≡ member_named (option_copied class.entry) (option_copied name.entry) (option_copied desc.entry) flags }
{
    match class {
        Some(class) => match name {
            Some(name) => match desc {
                Some(desc) => Some(MemberName {
                    class,
                    name,
                    desc,
                    flags,
                }),
                None => None,
            },
            None => None,
        },
        None => None,
    }
}

/// A member of a file by its names.
fn named_in<'a>(file: &'a ClassFile, member: Option<&'a Member>) -> Option<MemberName<'a>>
    ensures { result ≡ named_in file.now (option_copied member.entry) }
{
    match member {
        Some(member) => {
            let pool = &file.parts().pool;
            member_named(
                own_name(file),
                text(pool, member.name),
                text(pool, member.desc),
                member.flags,
            )
        }
        None => None,
    }
}

/// The field that was resolved, by its names (JVM Specification 5.4.3.2): `None` where no field stands there.
#[tactic(auto, unfolding(crate::specs::Members::field_named))]
pub fn field_named(field: &FieldAt) -> Option<MemberName<'_>>
    ensures { result ≡ field_named field.now }
{
    match field.class.get().walk().get(field.found.holder as usize) {
        Some(holder) => {
            let file = holder.get().file();
            named_in(
                file,
                file.parts().fields.get(usize::from(field.found.index)),
            )
        }
        None => None,
    }
}

/// The method that was resolved, or selected in a class, by its names (JVM Specification 5.4.3.3, 5.4.3.4, 6.5): `None` where no method stands
/// there.
#[tactic(auto, unfolding(crate::specs::Members::method_named))]
pub fn method_named(method: &MethodAt) -> Option<MemberName<'_>>
    ensures { result ≡ method_named method.now }
{
    match method.class.get().walk().get(method.found.holder as usize) {
        Some(holder) => {
            let file = holder.get().file();
            named_in(
                file,
                file.parts().methods.get(usize::from(method.found.index)),
            )
        }
        None => None,
    }
}
