ghost use Rattle.std.specs.Prelude.{◌≡◌};
ghost use Rattle.std.specs.Option.{option_copied};
ghost use Rattle.mvm_table.specs.Members.{reference_to, reference_at};

use mvm_base::{List, Name};
use mvm_layout::Item;
use mvm_layout::pool::{class_name, name_and_type, text};
use std::marker::Model;

/// A member by the name of a class, its own name and its descriptor (JVM Specification 4.4.2, 4.4.6).
#[derive(Drop)]
pub(crate) struct Reference<'a> {
    pub(crate) class: &'a Name,
    pub(crate) name: &'a Name,
    pub(crate) desc: &'a Name,
}

impl<'a> Model for Reference<'a> {
    ghost use Rattle.mvm_table.specs.Members.{Reference as ReferenceOf};

    ghost Value = { ReferenceOf };

    ghost view = { λ r. record { class = r.class.now; name = r.name.now; desc = r.desc.now } };
}

/// A member by what is there of the three.
fn reference_to<'a>(
    class: Option<&'a Name>,
    name: Option<&'a Name>,
    desc: Option<&'a Name>,
) -> Option<Reference<'a>>
    ensures { result ≡ reference_to (option_copied class.entry) (option_copied name.entry) (option_copied desc.entry) }
{
    match class {
        Some(class) => match name {
            Some(name) => match desc {
                Some(desc) => Some(Reference { class, name, desc }),
                None => None,
            },
            None => None,
        },
        None => None,
    }
}

/// What the indices of a class and of a name and type refer to.
pub(crate) fn reference_at(pool: &List<Item>, class: u16, member: u16) -> Option<Reference<'_>>
    ensures { result ≡ reference_at pool.now class member }
{
    match name_and_type(pool, member) {
        Some((name, desc)) => {
            reference_to(class_name(pool, class), text(pool, name), text(pool, desc))
        }
        None => None,
    }
}
