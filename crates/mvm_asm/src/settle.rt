//! What a line names is looked up in the constant pool, or appended.

ghost use Rattle.std.specs.Prelude.{◌≡◌, List as Items, IsTrue, IfOk, codes};
ghost use Rattle.mvm_listing.specs.Range.{fits_reference, fits_class, fits_member, fits_loadable, fits_long, fits_initial, fits_constant, fits_instruction};
ghost use Rattle.mvm_listing.specs.Constants.{text_entry, class_entry, member_kind, referred, class_or_none, member_referred, loadable_referred, long_referred, initial_referred};
ghost use Rattle.mvm_listing.specs.Assembly.{loaded, settled, constant_of};
ghost use Rattle.mvm_constants.specs.Search.{Goes};
ghost use Rattle.mvm_layout.specs.declared.parts.Item.{Item as ItemOf};

use crate::item::{int, long, short};
use mvm_base::Name;
use mvm_constants::ConstantPool;
use mvm_insn::opcodes::{GETFIELD, GETSTATIC, INVOKEINTERFACE, PUTFIELD, PUTSTATIC};
use mvm_listing::StepFault;
use mvm_listing::range::fits_entry;
use mvm_statement::{
    AsmKind, Initial, Instruction, Loadable, LongConstant, Member, PairKind, Reference,
};
use std::alloc::Global;

/// The entry of a text.
pub(crate) fn text_referred(pool: &mut ConstantPool, text: &Reference) -> Result<u16, StepFault>
    requires { IsTrue (fits_reference text.now) }
    ensures { Goes result (referred text_entry text.now pool.old) pool.new }
{
    match text {
        Reference::Indexed(index) => Ok(short(*index)),
        Reference::Named(name) => pool.text(name),
    }
}

/// The entry of a class.
pub(crate) fn class_referred(pool: &mut ConstantPool, class: &Reference) -> Result<u16, StepFault>
    requires { IsTrue (fits_reference class.now) }
    ensures { Goes result (referred class_entry class.now pool.old) pool.new }
{
    match class {
        Reference::Indexed(index) => Ok(short(*index)),
        Reference::Named(name) => pool.class(name),
    }
}

/// The entry of a class, or 0 where there is none.
pub(crate) fn class_or_none(
    pool: &mut ConstantPool,
    class: &Option<Reference>,
) -> Result<u16, StepFault>
    requires { IsTrue (fits_class class.now) }
    ensures { Goes result (class_or_none class.now pool.old) pool.new }
{
    match class {
        Some(class) => class_referred(pool, class),
        None => Ok(0),
    }
}

/// The kind of the member that an instruction is for.
fn member_kind(op: u8) -> PairKind
    ensures { result ≡ member_kind op }
{
    if op == GETSTATIC || op == PUTSTATIC || op == GETFIELD || op == PUTFIELD {
        PairKind::Fieldref
    } else if op == INVOKEINTERFACE {
        PairKind::InterfaceMethodref
    } else {
        PairKind::Methodref
    }
}

/// The entry of a field or a method, for an instruction.
fn member_referred(pool: &mut ConstantPool, op: u8, member: &Member) -> Result<u16, StepFault>
    requires { IsTrue (fits_member member.now) }
    ensures { Goes result (member_referred (member_kind op) member.now pool.old) pool.new }
{
    match member {
        Member::Indexed(index) => Ok(short(*index)),
        Member::Named { class, name, desc } => { pool.member(member_kind(op), class, name, desc) }
    }
}

/// The entry of what `ldc` and `ldc_w` push.
fn loadable_referred(pool: &mut ConstantPool, op: u8, constant: &Loadable) -> Result<u16, StepFault>
    requires { IsTrue (fits_loadable op constant.now) }
    ensures { Goes result (loadable_referred constant.now pool.old) pool.new }
{
    match constant {
        Loadable::Indexed(index) => Ok(short(*index)),
        Loadable::Integer(number) => pool.integer(int(*number)),
        Loadable::Text(units) => pool.string(units),
        Loadable::Class(name) => pool.class(name),
    }
}

/// The entry of what `ldc2_w` pushes.
fn long_referred(pool: &mut ConstantPool, constant: &LongConstant) -> Result<u16, StepFault>
    requires { IsTrue (fits_long constant.now) }
    ensures { Goes result (long_referred constant.now pool.old) pool.new }
{
    match constant {
        LongConstant::Indexed(index) => Ok(short(*index)),
        LongConstant::Long(number) => pool.long(long(*number)),
    }
}

/// The entry of the value that a field has at first.
fn initial_referred(
    pool: &mut ConstantPool,
    is_long: bool,
    value: &Initial,
) -> Result<u16, StepFault>
    requires { IsTrue (fits_initial is_long value.now) }
    ensures { Goes result (initial_referred is_long value.now pool.old) pool.new }
{
    match value {
        Initial::Indexed(index) => Ok(short(*index)),
        Initial::Number(number) => {
            if is_long {
                pool.long(long(*number))
            } else {
                pool.integer(int(*number))
            }
        }
        Initial::Text(units) => pool.string(units),
    }
}

/// The entry of the name of the attribute that has it.
fn constant_value(alloc: Global, pool: &mut ConstantPool) -> Result<u16, StepFault>
    ensures { Goes result (text_entry (codes "ConstantValue") pool.old) pool.new }
{
    let name = Name::from_ascii(alloc, "ConstantValue")?;
    pool.text(&name)
}

/// The entry of that value, behind the name of its attribute, if a field has one.
pub(crate) fn constant_of(
    alloc: Global,
    pool: &mut ConstantPool,
    is_long: bool,
    constant: &Option<Initial>,
) -> Result<Option<u16>, StepFault>
    requires { IsTrue (fits_constant is_long constant.now) }
    ensures { Goes result (constant_of is_long constant.now pool.old) pool.new }
{
    let Some(value) = constant else {
        return Ok(None);
    };
    constant_value(alloc, pool)?;
    let index = initial_referred(pool, is_long, value)?;
    Ok(Some(index))
}

/// An instruction that loads an entry. The index of one that `ldc` can have is of one byte.
fn loaded(op: u8, index: u16) -> Result<Instruction, StepFault>
    ensures goes { (pool : Items ItemOf) → Goes result (loaded op (index, pool)) pool }
    ensures fits { IfOk result (λ own. IsTrue (fits_instruction own)) }
{
    if !fits_entry(op, i128::from(index)) {
        return Err(StepFault::Kind(AsmKind::Range));
    }
    let constant = Loadable::Indexed(i128::from(index));
    Ok(Instruction::Load { op, constant })
}

/// An instruction with the entry that it names by its index.
pub(crate) fn settled(pool: &mut ConstantPool, line: Instruction) -> Result<Instruction, StepFault>
    requires { IsTrue (fits_instruction line) }
    ensures goes { Goes result (settled line pool.old) pool.new }
    ensures fits { IfOk result (λ own. IsTrue (fits_instruction own)) }
{
    match line {
        Instruction::Load { op, constant } => {
            let index = loadable_referred(pool, op, &constant)?;
            loaded(op, index)
        }
        Instruction::LoadLong { op, constant } => {
            let index = i128::from(long_referred(pool, &constant)?);
            let constant = LongConstant::Indexed(index);
            Ok(Instruction::LoadLong { op, constant })
        }
        Instruction::OfClass { op, class } => {
            let index = i128::from(class_referred(pool, &class)?);
            let class = Reference::Indexed(index);
            Ok(Instruction::OfClass { op, class })
        }
        Instruction::OfMember { op, member } => {
            let index = i128::from(member_referred(pool, op, &member)?);
            let member = Member::Indexed(index);
            Ok(Instruction::OfMember { op, member })
        }
        Instruction::Invocation { op, member, count } => {
            let index = i128::from(member_referred(pool, op, &member)?);
            let member = Member::Indexed(index);
            Ok(Instruction::Invocation { op, member, count })
        }
        Instruction::Dimensions { op, class, count } => {
            let index = i128::from(class_referred(pool, &class)?);
            let class = Reference::Indexed(index);
            Ok(Instruction::Dimensions { op, class, count })
        }
        line => Ok(line),
    }
}
