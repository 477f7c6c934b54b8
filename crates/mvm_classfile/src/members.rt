//! Fields, methods and code in bytes (JVM Specification 4.5, 4.6, 4.7.2, 4.7.3).

ghost use Rattle.std.specs.Prelude.{◌≡◌, ◌++◌, flat_map, length, OnOk};
ghost use Rattle.mvm_classfile.specs.Writing.{u2, written_row, written_code, written_attribute, constant_attribute, code_attribute, written_attributes, attributes_of, written_member, written_members};

use crate::entries::AttributeNames;
use crate::write_numbers::{push_count, push_long_count, push_u2};
use mvm_base::OutOfMemory;
use mvm_layout::{Code, Member, Row};
use std::alloc::{AllocError, Global};

/// Adds a row of an exception table.
fn push_row(bytes: &mut Vec<u8>, row: Row) -> Result<(), AllocError>
    ensures { OnOk result (bytes.new.items ≡ bytes.old.items ++ written_row row) }
{
    push_u2(bytes, row.start)?;
    push_u2(bytes, row.end)?;
    push_u2(bytes, row.handler)?;
    push_u2(bytes, row.catch_class)
}

/// Adds the count of an exception table, and its rows.
fn push_rows(bytes: &mut Vec<u8>, rows: &[Row]) -> Result<(), AllocError>
    ensures { OnOk result (bytes.new.items ≡ bytes.old.items ++ (u2 (length rows.now) ++ flat_map written_row rows.now)) }
{
    push_count(bytes, rows.len())?;
    for row in rows {
        push_row(bytes, *row)?;
    }
    Ok(())
}

/// Adds the content of a `Code` attribute.
#[tactic(auto, unfolding(crate::specs::Writing::written_code))]
fn push_code(bytes: &mut Vec<u8>, code: &Code) -> Result<(), AllocError>
    ensures { OnOk result (bytes.new.items ≡ bytes.old.items ++ written_code code.now) }
{
    push_u2(bytes, code.max_stack)?;
    push_u2(bytes, code.max_locals)?;
    push_long_count(bytes, code.bytes.len())?;
    bytes.extend_from_slice(code.bytes.as_slice())?;
    push_rows(bytes, code.rows.as_slice())?;
    push_u2(bytes, 0)
}

/// Adds an attribute.
fn push_attribute(bytes: &mut Vec<u8>, name: usize, content: &[u8]) -> Result<(), AllocError>
    ensures { OnOk result (bytes.new.items ≡ bytes.old.items ++ written_attribute name content.now) }
{
    push_count(bytes, name)?;
    push_long_count(bytes, content.len())?;
    bytes.extend_from_slice(content)
}

/// Adds the attribute of a value that a field has at first.
fn push_constant(
    alloc: Global,
    bytes: &mut Vec<u8>,
    names: &AttributeNames,
    index: u16,
) -> Result<(), AllocError>
    ensures { OnOk result (bytes.new.items ≡ bytes.old.items ++ written_attribute names.now.constant (u2 index)) }
{
    let mut content = Vec::new(alloc);
    push_u2(&mut content, index)?;
    push_attribute(bytes, names.constant, content.as_slice())
}

/// Adds the attribute of the code of a method.
fn push_code_attribute(
    alloc: Global,
    bytes: &mut Vec<u8>,
    names: &AttributeNames,
    code: &Code,
) -> Result<(), AllocError>
    ensures { OnOk result (bytes.new.items ≡ bytes.old.items ++ written_attribute names.now.code (written_code code.now)) }
{
    let mut content = Vec::new(alloc);
    push_code(&mut content, code)?;
    push_attribute(bytes, names.code, content.as_slice())
}

/// Adds the count of the attributes that are kept of a member, and those.
fn push_attributes(
    alloc: Global,
    bytes: &mut Vec<u8>,
    names: &AttributeNames,
    member: &Member,
) -> Result<(), AllocError>
    ensures { OnOk result (bytes.new.items ≡ bytes.old.items ++ written_attributes (attributes_of names.now member.now)) }
{
    match (member.constant, &member.code) {
        (None, None) => push_u2(bytes, 0),
        (Some(index), None) => {
            push_u2(bytes, 1)?;
            push_constant(alloc, bytes, names, index)
        }
        (None, Some(code)) => {
            push_u2(bytes, 1)?;
            push_code_attribute(alloc, bytes, names, code)
        }
        (Some(index), Some(code)) => {
            push_u2(bytes, 2)?;
            push_constant(alloc, bytes, names, index)?;
            push_code_attribute(alloc, bytes, names, code)
        }
    }
}

/// Adds a field or a method.
#[tactic(auto, unfolding(crate::specs::Writing::written_member))]
fn push_member(
    alloc: Global,
    bytes: &mut Vec<u8>,
    names: &AttributeNames,
    member: &Member,
) -> Result<(), AllocError>
    ensures { OnOk result (bytes.new.items ≡ bytes.old.items ++ written_member names.now member.now) }
{
    push_u2(bytes, member.flags)?;
    push_u2(bytes, member.name)?;
    push_u2(bytes, member.desc)?;
    push_attributes(alloc, bytes, names, member)
}

/// Adds the count of fields or methods, and those.
#[tactic(auto, unfolding(crate::specs::Writing::written_members))]
pub(crate) fn push_members(
    alloc: Global,
    bytes: &mut Vec<u8>,
    names: &AttributeNames,
    members: &[Member],
) -> Result<(), AllocError>
    ensures { OnOk result (bytes.new.items ≡ bytes.old.items ++ written_members names.now members.now) }
{
    push_count(bytes, members.len())?;
    for member in members {
        push_member(alloc, bytes, names, member)?;
    }
    Ok(())
}
