//! The constant pool in bytes (JVM Specification 4.4), and what names one of its texts.

ghost use Rattle.std.specs.Prelude.{◌≡◌, ◌++◌, flat_map, length, IfOk, OnOk, codes};
ghost use Rattle.mvm_layout.specs.declared.parts.Item.TheVariants.{Utf8};
ghost use Rattle.mvm_classfile.specs.Writing.{one_index, two_indices, written_item, written_pool, is_text_item, name_index, names_in};

use crate::write_numbers::{push_count, push_int, push_long, push_u1, push_u2, push_u4, push_u8};
use mvm_base::{Name, OutOfMemory, encode_mutf8};
use mvm_layout::Item;
use std::alloc::{AllocError, Global};
use std::marker::Model;

/// Adds a tag and an index.
fn push_index(bytes: &mut Vec<u8>, tag: u8, index: u16) -> Result<(), AllocError>
    ensures { OnOk result (bytes.new.items ≡ bytes.old.items ++ one_index tag index) }
{
    push_u1(bytes, tag)?;
    push_u2(bytes, index)
}

/// Adds a tag and two indices.
fn push_indices(bytes: &mut Vec<u8>, tag: u8, one: u16, other: u16) -> Result<(), AllocError>
    ensures { OnOk result (bytes.new.items ≡ bytes.old.items ++ two_indices tag one other) }
{
    push_u1(bytes, tag)?;
    push_u2(bytes, one)?;
    push_u2(bytes, other)
}

/// Adds a text: its tag, the length of its modified UTF-8, and that.
#[tactic(auto, unfolding(crate::specs::Writing::written_item))]
fn push_text(alloc: Global, bytes: &mut Vec<u8>, text: &Name) -> Result<(), OutOfMemory>
    ensures { OnOk result (bytes.new.items ≡ bytes.old.items ++ written_item (Utf8 text.now)) }
{
    let spelled = encode_mutf8(alloc, text)?;
    push_u1(bytes, 1)?;
    push_count(bytes, spelled.len())?;
    bytes.extend_from_slice(spelled.as_slice())?;
    Ok(())
}

/// Adds an entry.
#[tactic(auto, unfolding(crate::specs::Writing::written_item))]
fn push_item(alloc: Global, bytes: &mut Vec<u8>, item: &Item) -> Result<(), OutOfMemory>
    ensures { OnOk result (bytes.new.items ≡ bytes.old.items ++ written_item item.now) }
{
    match item {
        Item::Utf8(text) => push_text(alloc, bytes, text)?,
        Item::Integer(number) => {
            push_u1(bytes, 3)?;
            push_int(bytes, *number)?;
        }
        Item::Float(bits) => {
            push_u1(bytes, 4)?;
            push_u4(bytes, *bits)?;
        }
        Item::Long(number) => {
            push_u1(bytes, 5)?;
            push_long(bytes, *number)?;
        }
        Item::Double(bits) => {
            push_u1(bytes, 6)?;
            push_u8(bytes, *bits)?;
        }
        Item::Upper => {}
        Item::Class(name) => push_index(bytes, 7, *name)?,
        Item::Str(text) => push_index(bytes, 8, *text)?,
        Item::Fieldref(class, member) => push_indices(bytes, 9, *class, *member)?,
        Item::Methodref(class, member) => push_indices(bytes, 10, *class, *member)?,
        Item::InterfaceMethodref(class, member) => push_indices(bytes, 11, *class, *member)?,
        Item::NameAndType(name, desc) => push_indices(bytes, 12, *name, *desc)?,
        Item::MethodHandle(kind, reference) => {
            push_u1(bytes, 15)?;
            push_u1(bytes, *kind)?;
            push_u2(bytes, *reference)?;
        }
        Item::MethodType(desc) => push_index(bytes, 16, *desc)?,
        Item::InvokeDynamic(bootstrap, member) => push_indices(bytes, 18, *bootstrap, *member)?,
    }
    Ok(())
}

/// Adds the count of the constant pool, and its entries.
#[tactic(auto, unfolding(crate::specs::Writing::written_pool))]
pub(crate) fn push_pool(
    alloc: Global,
    bytes: &mut Vec<u8>,
    pool: &[Item],
) -> Result<(), OutOfMemory>
    ensures { OnOk result (bytes.new.items ≡ bytes.old.items ++ written_pool pool.now) }
{
    push_count(bytes, pool.len() + 1)?;
    for item in pool {
        push_item(alloc, bytes, item)?;
    }
    Ok(())
}

/// Whether an entry is this text.
fn is_text_item(wanted: &Name, item: &Item) -> bool
    ensures { result ≡ is_text_item wanted.now item.now }
{
    match item {
        Item::Utf8(text) => text.same(wanted),
        _ => false,
    }
}

/// The lowest index of this text among the entries, or 0 where there is none.
#[tactic(auto, unfolding(crate::specs::Writing::name_index))]
fn name_index(pool: &[Item], name: &Name) -> usize
    ensures { result ≡ name_index pool.now name.now }
{
    for i in 0..pool.len() {
        if is_text_item(name, &pool[i]) {
            return i + 1;
        }
    }
    0
}

/// The indices of the names of the two attributes that are written.
#[derive(Drop)]
pub(crate) struct AttributeNames {
    pub(crate) constant: usize,
    pub(crate) code: usize,
}

impl Model for AttributeNames {
    ghost use Rattle.mvm_classfile.specs.Writing.{Names};

    ghost Value = { Names };

    ghost view = { λ names. record { constant = names.constant; code = names.code } };
}

/// The two indices in this pool.
#[tactic(auto, unfolding(crate::specs::Writing::names_in))]
pub(crate) fn attribute_names(alloc: Global, pool: &[Item]) -> Result<AttributeNames, AllocError>
    ensures { IfOk result (λ names. names ≡ names_in pool.now) }
{
    let constant = Name::from_ascii(alloc, "ConstantValue")?;
    let code = Name::from_ascii(alloc, "Code")?;
    Ok(AttributeNames {
        constant: name_index(pool, &constant),
        code: name_index(pool, &code),
    })
}
