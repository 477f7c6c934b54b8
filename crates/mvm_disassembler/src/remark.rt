//! What an entry of the constant pool is, as the comment of a line says it.
#![tactic(auto, using(crate::proofs::Cutting::cut_none, mvm_listing::proofs::Magnitude::magnitude_is))]

ghost use Rattle.std.specs.Prelude.{◌≡◌, ◌++◌, ◌∷◌, [], OnOk, IfOk, Some};
ghost use Rattle.std.specs.Option.{option_copied};
ghost use Rattle.std.specs.Fmt.{signed_decimal};
ghost use Rattle.mvm_layout.specs.Pool.{entry, text, class_name};
ghost use Rattle.mvm_statement.specs.Numbers.{magnitude};
ghost use Rattle.mvm_listing.specs.Encoding.{reference_index, member_index, loadable_index, long_index};
ghost use Rattle.mvm_listing.specs.LaidOut.{text_or_none, pair_of, member_of, meaning, entry_named, class_meaning, remark};
ghost use Rattle.mvm_disassembler.specs.Steps.{cut};

use itoa::Buffer;
use mvm_base::{List, Name};
use mvm_layout::Item;
use mvm_layout::pool::{class_name, name_and_type, text};
use mvm_statement::{Instruction, Loadable, LongConstant, Member, Reference, Statement};
use std::alloc::{AllocError, Global};

/// So many units of a comment are shown at most.
const LONGEST: usize = 120;

/// Adds a unit, if there is room.
#[tactic(auto, using(crate::proofs::Cutting::room_for, crate::proofs::Cutting::no_room))]
fn push_unit(out: &mut List<u16>, unit: u16) -> Result<(), AllocError>
    requires { out.old ≡ cut out.old }
    ensures { OnOk result (out.new ≡ cut (out.old ++ unit ∷ [])) }
{
    if out.len() < LONGEST {
        return out.push(unit);
    }
    Ok(())
}

/// The units of a text that a comment can show.
#[tactic(auto, using(crate::proofs::Cutting::cut_short, crate::proofs::Cutting::cut_long))]
fn shown(units: &[u16]) -> &[u16]
    ensures { result.now ≡ cut units.now }
{
    if units.len() <= LONGEST {
        return units;
    }
    let (first, _) = units.split_at(LONGEST);
    first
}

/// Adds units, while there is room.
#[tactic(auto, using(crate::proofs::Cutting::cut_shown))]
fn push_units(out: &mut List<u16>, units: &[u16]) -> Result<(), AllocError>
    requires { out.old ≡ cut out.old }
    ensures { OnOk result (out.new ≡ cut (out.old ++ units.now)) }
{
    push_each(out, shown(units))
}

/// Adds units one by one, while there is room.
#[tactic(auto, using(crate::proofs::Cutting::cut_none, crate::proofs::Cutting::cut_room, crate::proofs::Cutting::units_more))]
fn push_each(out: &mut List<u16>, units: &[u16]) -> Result<(), AllocError>
    requires { out.old ≡ cut out.old }
    ensures { OnOk result (out.new ≡ cut (out.old ++ units.now)) }
{
    for unit in units {
        push_unit(out, *unit)?;
    }
    Ok(())
}

/// Adds a text, if there is one.
fn push_text(out: &mut List<u16>, text: Option<&Name>) -> Result<(), AllocError>
    requires { out.old ≡ cut out.old }
    ensures { OnOk result (out.new ≡ cut (out.old ++ text_or_none (option_copied text.entry))) }
{
    match text {
        Some(text) => push_units(out, text.units()),
        None => Ok(()),
    }
}

/// Adds a number.
fn push_number(alloc: Global, out: &mut List<u16>, number: i64) -> Result<(), AllocError>
    requires { out.old ≡ cut out.old }
    ensures { OnOk result (out.new ≡ cut (out.old ++ signed_decimal number)) }
{
    let mut digits = Buffer::new();
    let number = Name::from_ascii(alloc, digits.format(number))?;
    push_units(out, number.units())
}

/// Adds a name, `:` and a descriptor.
#[tactic(auto, using(crate::proofs::Cutting::cut_between, crate::proofs::Cutting::cut_room))]
fn push_texts(
    out: &mut List<u16>,
    name: Option<&Name>,
    desc: Option<&Name>,
) -> Result<(), AllocError>
    requires { out.old ≡ cut out.old }
    ensures { OnOk result (out.new ≡ cut (out.old ++ (text_or_none (option_copied name.entry) ++ 58 ∷ text_or_none (option_copied desc.entry)))) }
{
    push_text(out, name)?;
    push_unit(out, u16::from(b':'))?;
    push_text(out, desc)
}

/// Adds a name, `:` and a descriptor, by their indices.
fn push_pair(
    out: &mut List<u16>,
    pool: &List<Item>,
    pair: Option<(u16, u16)>,
) -> Result<(), AllocError>
    requires { out.old ≡ cut out.old }
    ensures { OnOk result (out.new ≡ cut (out.old ++ pair_of pool.now pair)) }
{
    match pair {
        Some((name, desc)) => push_texts(out, text(pool, name), text(pool, desc)),
        None => Ok(()),
    }
}

/// Adds a class, `.`, a name, `:` and a descriptor, by the indices of the class and of the name and type.
#[tactic(auto, using(crate::proofs::Cutting::cut_between, crate::proofs::Cutting::cut_room))]
fn push_member(
    out: &mut List<u16>,
    pool: &List<Item>,
    class: u16,
    member: u16,
) -> Result<(), AllocError>
    requires { out.old ≡ cut out.old }
    ensures { OnOk result (out.new ≡ cut (out.old ++ member_of pool.now class member)) }
{
    push_text(out, class_name(pool, class))?;
    push_unit(out, u16::from(b'.'))?;
    push_pair(out, pool, name_and_type(pool, member))
}

/// Adds what an entry is.
fn push_meaning(
    alloc: Global,
    out: &mut List<u16>,
    pool: &List<Item>,
    item: Option<&Item>,
) -> Result<(), AllocError>
    requires { out.old ≡ cut out.old }
    ensures { OnOk result (out.new ≡ cut (out.old ++ meaning pool.now (option_copied item.entry))) }
{
    match item {
        Some(Item::Integer(number)) => push_number(alloc, out, i64::from(*number)),
        Some(Item::Long(number)) => push_number(alloc, out, *number),
        Some(Item::Class(index) | Item::Str(index) | Item::MethodType(index)) => {
            push_text(out, text(pool, *index))
        }
        Some(
            Item::Fieldref(class, member)
            | Item::Methodref(class, member)
            | Item::InterfaceMethodref(class, member),
        ) => push_member(out, pool, *class, *member),
        Some(Item::NameAndType(name, desc)) => push_pair(out, pool, Some((*name, *desc))),
        Some(Item::InvokeDynamic(_, member)) => push_pair(out, pool, name_and_type(pool, *member)),
        _ => Ok(()),
    }
}

/// The entry of an index of a line.
fn entry_at(pool: &List<Item>, index: i128) -> Option<&Item>
    ensures { option_copied result ≡ entry pool.now (magnitude index) }
{
    let index = index.unsigned_abs();
    if index == 0 || index > pool.len() as u128 {
        return None;
    }
    pool.get(index as usize - 1)
}

/// The text of an index of a line.
fn text_at(pool: &List<Item>, index: i128) -> Option<&Name>
    ensures { option_copied result ≡ text pool.now (magnitude index) }
{
    match entry_at(pool, index) {
        Some(Item::Utf8(text)) => Some(text),
        _ => None,
    }
}

/// The name of the class of an index of a line.
fn class_name_at(pool: &List<Item>, index: i128) -> Option<&Name>
    ensures { option_copied result ≡ class_name pool.now (magnitude index) }
{
    match entry_at(pool, index) {
        Some(Item::Class(name)) => text(pool, *name),
        _ => None,
    }
}

/// The entry that an instruction names, if it names one by its index.
fn entry_of<'a>(pool: &'a List<Item>, line: &Instruction) -> Option<&'a Item>
    ensures { option_copied result ≡ entry pool.now (entry_named line.now) }
{
    match line {
        Instruction::Load {
            constant: Loadable::Indexed(index),
            ..
        }
        | Instruction::LoadLong {
            constant: LongConstant::Indexed(index),
            ..
        }
        | Instruction::OfClass {
            class: Reference::Indexed(index),
            ..
        }
        | Instruction::OfMember {
            member: Member::Indexed(index),
            ..
        }
        | Instruction::Invocation {
            member: Member::Indexed(index),
            ..
        }
        | Instruction::Dimensions {
            class: Reference::Indexed(index),
            ..
        } => { entry_at(pool, *index) }
        _ => None,
    }
}

/// The name of the class that a line names by its index.
fn class_named<'a>(pool: &'a List<Item>, class: &Reference) -> Option<&'a Name>
    ensures { option_copied result ≡ class_name pool.now (reference_index class.now) }
{
    match class {
        Reference::Indexed(index) => class_name_at(pool, *index),
        Reference::Named(_) => None,
    }
}

/// The text that a line names by its index.
fn text_named<'a>(pool: &'a List<Item>, name: &Reference) -> Option<&'a Name>
    ensures { option_copied result ≡ text pool.now (reference_index name.now) }
{
    match name {
        Reference::Indexed(index) => text_at(pool, *index),
        Reference::Named(_) => None,
    }
}

/// Adds what a line says of names.
fn push_remark(
    alloc: Global,
    out: &mut List<u16>,
    pool: &List<Item>,
    line: &Statement,
) -> Result<(), AllocError>
    requires { out.old ≡ cut out.old }
    ensures { OnOk result (out.new ≡ cut (out.old ++ remark pool.now line.now)) }
{
    match line {
        Statement::Entry { index, .. } => push_meaning(alloc, out, pool, entry_at(pool, *index)),
        Statement::Class { this_class, .. } => push_text(out, class_named(pool, this_class)),
        Statement::Implements { interface } => push_text(out, class_named(pool, interface)),
        Statement::Field { name, desc, .. } | Statement::Method { name, desc, .. } => {
            push_texts(out, text_named(pool, name), text_named(pool, desc))
        }
        Statement::Instruction { line } => push_meaning(alloc, out, pool, entry_of(pool, line)),
        Statement::Catch {
            class: Some(class),
            ..
        } => push_text(out, class_named(pool, class)),
        _ => Ok(()),
    }
}

/// What a line says of names, as much of it as is shown.
#[tactic(auto, using(crate::proofs::Cutting::cut_empty))]
pub(crate) fn remark(
    alloc: Global,
    pool: &List<Item>,
    line: &Statement,
) -> Result<List<u16>, AllocError>
    ensures { IfOk result (λ units. units ≡ cut (remark pool.now line.now)) }
{
    let mut out = List::new(alloc);
    push_remark(alloc, &mut out, pool, line)?;
    Ok(out)
}
