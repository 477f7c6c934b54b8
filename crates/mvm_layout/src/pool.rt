//! The constant pool by index (JVM Specification 4.4): which kind of entry stands there, and what it leads to. An index is
//! counted from 1, as in a file; 0, and an index behind the last, have no entry. No call takes memory, and none fails: `None`
//! or `false` is the answer where no entry of the kind stands.
ghost use Rattle.std.specs.Prelude.{◌≡◌};
ghost use Rattle.std.specs.Option.{option_copied};
ghost use Rattle.std.specs.Str.{bytes_eq};
ghost use Rattle.mvm_layout.specs.Pool.{entry, text, class_name, is_text, is_utf8, is_class, is_field, is_method, is_interface_method, is_long, is_loadable, is_name_and_type, member, name_and_type};

use crate::parts::Item;
use mvm_base::{List, Name};

/// The entry of an index, which is counted from 1 (4.1). The second index of a long or a double has [`Item::Upper`].
pub fn entry(pool: &List<Item>, index: u16) -> Option<&Item>
    ensures { option_copied result ≡ entry pool.now index }
{
    if index == 0 {
        return None;
    }
    pool.get(usize::from(index) - 1)
}

/// The text of an index, where a text stands there (4.4.7).
pub fn text(pool: &List<Item>, index: u16) -> Option<&Name>
    ensures { option_copied result ≡ text pool.now index }
{
    match entry(pool, index) {
        Some(Item::Utf8(text)) => Some(text),
        _ => None,
    }
}

/// The name of the class of an index, where a class stands there, and a text at the index of its name (4.4.1). The name of
/// an array class is its descriptor.
pub fn class_name(pool: &List<Item>, index: u16) -> Option<&Name>
    ensures { option_copied result ≡ class_name pool.now index }
{
    match entry(pool, index) {
        Some(Item::Class(name)) => text(pool, *name),
        _ => None,
    }
}

/// Whether the units are these letters, one unit for each byte. It looks at no unit where the lengths differ.
pub fn same_text(units: &[u16], wanted: &[u8]) -> bool
    ensures { result ≡ bytes_eq units.now wanted.now }
{
    if units.len() != wanted.len() {
        return false;
    }
    for i in 0..wanted.len() {
        if units[i] != u16::from(wanted[i]) {
            return false;
        }
    }
    true
}

/// Whether an index has a text, and it is this one, one unit for each byte (4.4.7).
pub fn is_text(pool: &List<Item>, index: u16, wanted: &[u8]) -> bool
    ensures { result ≡ is_text wanted.now (text pool.now index) }
{
    match text(pool, index) {
        Some(name) => same_text(name.units(), wanted),
        None => false,
    }
}

/// Whether an index has a class, and this is its name, one unit for each byte (4.4.1).
pub fn is_class_named(pool: &List<Item>, index: u16, wanted: &[u8]) -> bool
    ensures { result ≡ is_text wanted.now (class_name pool.now index) }
{
    match class_name(pool, index) {
        Some(name) => same_text(name.units(), wanted),
        None => false,
    }
}

/// Of the field or the method of an index: the index of its class, and the index of its name and type (4.4.2).
pub fn member(pool: &List<Item>, index: u16) -> Option<(u16, u16)>
    ensures { result ≡ member pool.now index }
{
    match entry(pool, index) {
        Some(Item::Fieldref(class, member)) => Some((*class, *member)),
        Some(Item::Methodref(class, member)) => Some((*class, *member)),
        Some(Item::InterfaceMethodref(class, member)) => Some((*class, *member)),
        _ => None,
    }
}

/// Of the name and type of an index: the index of the name, and the index of the descriptor (4.4.6).
pub fn name_and_type(pool: &List<Item>, index: u16) -> Option<(u16, u16)>
    ensures { result ≡ name_and_type pool.now index }
{
    match entry(pool, index) {
        Some(Item::NameAndType(name, desc)) => Some((*name, *desc)),
        _ => None,
    }
}

/// Whether an index has a text (4.4.7).
pub fn is_utf8(pool: &List<Item>, index: u16) -> bool
    ensures { result ≡ is_utf8 (entry pool.now index) }
{
    matches!(entry(pool, index), Some(Item::Utf8(_)))
}

/// Whether an index has a class; an interface or an array class is one, too (4.4.1).
pub fn is_class(pool: &List<Item>, index: u16) -> bool
    ensures { result ≡ is_class (entry pool.now index) }
{
    matches!(entry(pool, index), Some(Item::Class(_)))
}

/// Whether an index has a field (4.4.2).
pub fn is_field(pool: &List<Item>, index: u16) -> bool
    ensures { result ≡ is_field (entry pool.now index) }
{
    matches!(entry(pool, index), Some(Item::Fieldref(_, _)))
}

/// Whether an index has a method of a class (4.4.2).
pub fn is_method(pool: &List<Item>, index: u16) -> bool
    ensures { result ≡ is_method (entry pool.now index) }
{
    matches!(entry(pool, index), Some(Item::Methodref(_, _)))
}

/// Whether an index has a method of an interface (4.4.2).
pub fn is_interface_method(pool: &List<Item>, index: u16) -> bool
    ensures { result ≡ is_interface_method (entry pool.now index) }
{
    matches!(entry(pool, index), Some(Item::InterfaceMethodref(_, _)))
}

/// Whether an index has a long (4.4.5).
pub fn is_long(pool: &List<Item>, index: u16) -> bool
    ensures { result ≡ is_long (entry pool.now index) }
{
    matches!(entry(pool, index), Some(Item::Long(_)))
}

/// Whether an index has a name and a descriptor (4.4.6).
pub fn is_name_and_type(pool: &List<Item>, index: u16) -> bool
    ensures { result ≡ is_name_and_type (entry pool.now index) }
{
    matches!(entry(pool, index), Some(Item::NameAndType(_, _)))
}

/// Whether an index has what `ldc` pushes here (6.5): an int, a string or a class. Floats, method types and method handles
/// are left out of this machine's profile.
pub fn is_loadable(pool: &List<Item>, index: u16) -> bool
    ensures { result ≡ is_loadable (entry pool.now index) }
{
    matches!(
        entry(pool, index),
        Some(Item::Integer(_) | Item::Str(_) | Item::Class(_))
    )
}
