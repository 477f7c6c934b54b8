//! Whether the numbers of a line fit their fields.

ghost use Rattle.std.specs.Prelude.{◌≡◌, IsTrue, length};
ghost use Rattle.mvm_statement.specs.declared.statement.Statement.TheVariants.{Field};
ghost use Rattle.std.specs.List.{list_all};
ghost use Rattle.mvm_listing.specs.Range.{within, is_u1, is_u2, is_u4, is_u8, is_i1, is_i2, is_i4, is_i8, fits_number, fits_mixed, fits_value, fits_reference, fits_class, fits_member, fits_entry, fits_loadable, fits_long, is_long_text, fits_initial, fits_constant, takes_wide, highest, fits_instruction, fits, pushes_byte, names_byte, jumps_far};

use mvm_base::List;
use mvm_insn::{Operands, operands_of};
use mvm_layout::Item;
use mvm_layout::pool::{is_text, same_text};
use mvm_statement::{
    Initial, Instruction, KeyRow, Loadable, LongConstant, Member, MixedKind, NumberKind, Place,
    PoolValue, Reference, Statement,
};

/// Whether a number is neither below the one nor above the other.
fn within(low: i128, high: i128, number: i128) -> bool
    ensures { result ≡ within low high number }
{
    low <= number && number <= high
}

/// A number of one byte.
pub fn is_u1(number: i128) -> bool
    ensures { result ≡ is_u1 number }
{
    within(0, 255, number)
}

/// A number of two bytes.
pub fn is_u2(number: i128) -> bool
    ensures { result ≡ is_u2 number }
{
    within(0, 65535, number)
}

/// A number of four bytes.
fn is_u4(number: i128) -> bool
    ensures { result ≡ is_u4 number }
{
    within(0, 4_294_967_295, number)
}

/// A number of eight bytes.
fn is_u8(number: i128) -> bool
    ensures { result ≡ is_u8 number }
{
    within(0, 18_446_744_073_709_551_615, number)
}

/// A number of one byte in two's complement.
fn is_i1(number: i128) -> bool
    ensures { result ≡ is_i1 number }
{
    within(-128, 127, number)
}

/// A number of two bytes in two's complement.
pub fn is_i2(number: i128) -> bool
    ensures { result ≡ is_i2 number }
{
    within(-32_768, 32_767, number)
}

/// A number of four bytes in two's complement.
pub fn is_i4(number: i128) -> bool
    ensures { result ≡ is_i4 number }
{
    within(-2_147_483_648, 2_147_483_647, number)
}

/// A number of eight bytes in two's complement.
fn is_i8(number: i128) -> bool
    ensures { result ≡ is_i8 number }
{
    within(
        -9_223_372_036_854_775_808,
        9_223_372_036_854_775_807,
        number,
    )
}

/// The number of an entry.
fn fits_number(kind: NumberKind, number: i128) -> bool
    ensures { result ≡ fits_number kind number }
{
    match kind {
        NumberKind::Integer => is_i4(number),
        NumberKind::Float => is_u4(number),
        NumberKind::Long => is_i8(number),
        NumberKind::Double => is_u8(number),
    }
}

/// The number of an entry that leads to another.
fn fits_mixed(kind: MixedKind, number: i128) -> bool
    ensures { result ≡ fits_mixed kind number }
{
    match kind {
        MixedKind::MethodHandle => is_u1(number),
        MixedKind::InvokeDynamic => is_u2(number),
    }
}

/// The numbers of an entry.
fn fits_value(value: &PoolValue) -> bool
    ensures { result ≡ fits_value value.now }
{
    match value {
        PoolValue::Text(_) => true,
        PoolValue::Number { kind, number } => fits_number(*kind, *number),
        PoolValue::Index { index, .. } => is_u2(*index),
        PoolValue::Indices { first, second, .. } => is_u2(*first) && is_u2(*second),
        PoolValue::NumberAndIndex {
            kind,
            number,
            index,
        } => fits_mixed(*kind, *number) && is_u2(*index),
    }
}

/// An entry by its index, or by name.
fn fits_reference(reference: &Reference) -> bool
    ensures { result ≡ fits_reference reference.now }
{
    match reference {
        Reference::Indexed(index) => is_u2(*index),
        Reference::Named(_) => true,
    }
}

/// A class, if there is one.
fn fits_class(class: &Option<Reference>) -> bool
    ensures { result ≡ fits_class class.now }
{
    match class {
        Some(class) => fits_reference(class),
        None => true,
    }
}

/// A field or a method.
fn fits_member(member: &Member) -> bool
    ensures { result ≡ fits_member member.now }
{
    match member {
        Member::Indexed(index) => is_u2(*index),
        Member::Named { .. } => true,
    }
}

/// A number to push is of one byte.
pub fn pushes_byte(operands: Operands) -> bool
    ensures { result ≡ pushes_byte operands }
{
    matches!(operands, Operands::ByteNumber)
}

/// The index of an entry is of one byte.
pub fn names_byte(operands: Operands) -> bool
    ensures { result ≡ names_byte operands }
{
    matches!(operands, Operands::BytePool)
}

/// An offset is of four bytes.
pub fn jumps_far(operands: Operands) -> bool
    ensures { result ≡ jumps_far operands }
{
    matches!(operands, Operands::LongJump)
}

/// The index of an entry that an instruction loads.
pub fn fits_entry(op: u8, index: i128) -> bool
    ensures { result ≡ fits_entry op index }
{
    if names_byte(operands_of(op)) {
        is_u1(index)
    } else {
        is_u2(index)
    }
}

/// What `ldc` and `ldc_w` push.
fn fits_loadable(op: u8, constant: &Loadable) -> bool
    ensures { result ≡ fits_loadable op constant.now }
{
    match constant {
        Loadable::Indexed(index) => fits_entry(op, *index),
        Loadable::Integer(number) => is_i4(*number),
        Loadable::Text(_) | Loadable::Class(_) => true,
    }
}

/// What `ldc2_w` pushes.
fn fits_long(constant: &LongConstant) -> bool
    ensures { result ≡ fits_long constant.now }
{
    match constant {
        LongConstant::Indexed(index) => is_u2(*index),
        LongConstant::Long(number) => is_i8(*number),
    }
}

/// Whether a descriptor is that of a field of type long.
pub fn is_long_text(pool: &List<Item>, desc: &Reference) -> bool
    requires { IsTrue (fits_reference desc.now) }
    ensures { result ≡ is_long_text pool.now desc.now }
{
    match desc {
        Reference::Indexed(index) => is_text(pool, *index as u16, b"J"),
        Reference::Named(name) => same_text(name.units(), b"J"),
    }
}

/// The value that a field has at first.
fn fits_initial(is_long: bool, value: &Initial) -> bool
    ensures { result ≡ fits_initial is_long value.now }
{
    match value {
        Initial::Indexed(index) => is_u2(*index),
        Initial::Number(number) => {
            if is_long {
                is_i8(*number)
            } else {
                is_i4(*number)
            }
        }
        Initial::Text(_) => true,
    }
}

/// That value, if there is one.
fn fits_constant(is_long: bool, constant: &Option<Initial>) -> bool
    ensures { result ≡ fits_constant is_long constant.now }
{
    match constant {
        Some(value) => fits_initial(is_long, value),
        None => true,
    }
}

/// Whether an instruction on a local variable is written with `wide`.
#[tactic(auto, using(crate::proofs::Magnitude::magnitude_is))]
pub fn takes_wide(wide: bool, local: i128) -> bool
    ensures { result ≡ takes_wide wide local }
{
    wide || local.unsigned_abs() > 255
}

/// The key of the last row of a `tableswitch`.
pub fn highest(low: i128, targets: &List<Place>) -> i128
    requires { IsTrue (is_i4 low) }
    ensures { result ≡ highest low targets.now }
{
    low + targets.len() as i128 - 1
}

/// The keys of a `lookupswitch`.
fn fit_keys(rows: &[KeyRow]) -> bool
    ensures { result ≡ list_all (λ row. is_i4 row.key) rows.now }
{
    rows.iter().all(|row| is_i4(row.key))
}

/// The numbers of an instruction, but for its places.
fn fits_instruction(line: &Instruction) -> bool
    ensures { result ≡ fits_instruction line.now }
{
    match line {
        Instruction::Plain { .. } | Instruction::Jump { .. } => true,
        Instruction::Push { op, number } => {
            if pushes_byte(operands_of(*op)) {
                is_i1(*number)
            } else {
                is_i2(*number)
            }
        }
        Instruction::Load { op, constant } => fits_loadable(*op, constant),
        Instruction::LoadLong { constant, .. } => fits_long(constant),
        Instruction::OfClass { class, .. } => fits_reference(class),
        Instruction::OfMember { member, .. } => fits_member(member),
        Instruction::Local { local, .. } => is_u2(*local),
        Instruction::Increment {
            local,
            by,
            wide,
            ..
        } => {
            is_u2(*local)
                && if takes_wide(*wide, *local) {
                    is_i2(*by)
                } else {
                    is_i1(*by)
                }
        }
        Instruction::Table { low, targets, .. } => is_i4(*low) && is_i4(highest(*low, targets)),
        Instruction::Lookup { rows, .. } => fit_keys(rows.as_slice()),
        Instruction::Invocation { member, count, .. } => fits_member(member) && is_u1(*count),
        Instruction::Items { kind, .. } => is_u1(*kind),
        Instruction::Dimensions { class, count, .. } => fits_reference(class) && is_u1(*count),
    }
}

/// A field: its flags, its name and its descriptor, and the value that it has at first.
fn fits_field(
    pool: &List<Item>,
    flags: i128,
    name: &Reference,
    desc: &Reference,
    constant: &Option<Initial>,
) -> bool
    ensures { result ≡ fits pool.now (Field flags name.now desc.now constant.now) }
{
    is_u2(flags)
        && fits_reference(name)
        && fits_reference(desc)
        && fits_constant(is_long_text(pool, desc), constant)
}

/// Whether each number of a line fits its field.
pub fn fits(pool: &List<Item>, line: &Statement) -> bool
    ensures { result ≡ fits pool.now line.now }
{
    match line {
        Statement::Version { minor, major } => is_u2(*minor) && is_u2(*major),
        Statement::Entry { index, value } => is_u2(*index) && fits_value(value),
        Statement::Class {
            flags,
            this_class,
            super_class,
        } => is_u2(*flags) && fits_reference(this_class) && fits_class(super_class),
        Statement::Implements { interface } => fits_reference(interface),
        Statement::Field {
            flags,
            name,
            desc,
            constant,
        } => fits_field(pool, *flags, name, desc, constant),
        Statement::Method { flags, name, desc } => {
            is_u2(*flags) && fits_reference(name) && fits_reference(desc)
        }
        Statement::Code {
            max_stack,
            max_locals,
        } => is_u2(*max_stack) && is_u2(*max_locals),
        Statement::Label { .. } | Statement::End => true,
        Statement::Instruction { line } => fits_instruction(line),
        Statement::Byte { value } => is_u1(*value),
        Statement::Catch { class, .. } => fits_class(class),
    }
}
