//! The instructions that change the operands alone (JVM Specification 6.5). After a fault the operands may be different.

ghost use Rattle.std.specs.Prelude.{◌≡◌, IsSome};
ghost use Rattle.mvm_base.specs.Answers.{Does};
ghost use Rattle.mvm_local.specs.Groups.{shuffle, ints, negate_int, longs, negate_long, shift_long, convert, compare, operate};

use crate::action::Operation;
use crate::compute::{int_of, long_of, shifted_long, word_of};
use crate::fault::Fault;
use crate::moves::{pop, pop_int, pop_long, push, push_int};
use mvm_base::{Kind, Word};
use mvm_frame::{Stack, shuffle_of};

#[tactic(auto, unfolding(crate::specs::Groups::shuffle), using(crate::proofs::Framing::framing))]
fn shuffle(stack: &mut Stack, op: u8) -> Result<(), Fault>
    requires { IsSome stack.old.rest.below.key }
    ensures does { Does result (shuffle op stack.old.operands) stack.new.operands }
    ensures depth { stack.new.operands.depth ≡ stack.old.operands.depth }
    ensures rest { stack.new.rest ≡ stack.old.rest }
{
    match shuffle_of(op) {
        Some(_) => match stack.shuffle(op) {
            Ok(()) => Ok(()),
            Err(_) => Err(Fault::Verify),
        },
        None => Err(Fault::Verify),
    }
}

#[tactic(auto, unfolding(crate::specs::Groups::ints))]
fn ints(stack: &mut Stack, op: u8) -> Result<(), Fault>
    requires { IsSome stack.old.rest.below.key }
    ensures does { Does result (ints op stack.old.operands) stack.new.operands }
    ensures depth { stack.new.operands.depth ≡ stack.old.operands.depth }
    ensures rest { stack.new.rest ≡ stack.old.rest }
{
    let y = pop_int(stack)?;
    let x = pop_int(stack)?;
    let value = int_of(op, x, y)?;
    push_int(stack, value)
}

#[tactic(auto, unfolding(crate::specs::Groups::negate_int))]
fn negate_int(stack: &mut Stack, op: u8) -> Result<(), Fault>
    requires { IsSome stack.old.rest.below.key }
    ensures does { Does result (negate_int op stack.old.operands) stack.new.operands }
    ensures depth { stack.new.operands.depth ≡ stack.old.operands.depth }
    ensures rest { stack.new.rest ≡ stack.old.rest }
{
    let x = pop_int(stack)?;
    let value = int_of(op, x, 0)?;
    push_int(stack, value)
}

#[tactic(auto, unfolding(crate::specs::Groups::longs))]
fn longs(stack: &mut Stack, op: u8) -> Result<(), Fault>
    requires { IsSome stack.old.rest.below.key }
    ensures does { Does result (longs op stack.old.operands) stack.new.operands }
    ensures depth { stack.new.operands.depth ≡ stack.old.operands.depth }
    ensures rest { stack.new.rest ≡ stack.old.rest }
{
    let y = pop_long(stack)?;
    let x = pop_long(stack)?;
    let value = long_of(op, x, y)?;
    push(stack, Word::Long(value))
}

#[tactic(auto, unfolding(crate::specs::Groups::negate_long))]
fn negate_long(stack: &mut Stack, op: u8) -> Result<(), Fault>
    requires { IsSome stack.old.rest.below.key }
    ensures does { Does result (negate_long op stack.old.operands) stack.new.operands }
    ensures depth { stack.new.operands.depth ≡ stack.old.operands.depth }
    ensures rest { stack.new.rest ≡ stack.old.rest }
{
    let x = pop_long(stack)?;
    let value = long_of(op, x, 0)?;
    push(stack, Word::Long(value))
}

#[tactic(auto, unfolding(crate::specs::Groups::shift_long))]
fn shift_long(stack: &mut Stack, op: u8) -> Result<(), Fault>
    requires { IsSome stack.old.rest.below.key }
    ensures does { Does result (shift_long op stack.old.operands) stack.new.operands }
    ensures depth { stack.new.operands.depth ≡ stack.old.operands.depth }
    ensures rest { stack.new.rest ≡ stack.old.rest }
{
    let distance = pop_int(stack)?;
    let x = pop_long(stack)?;
    let value = shifted_long(op, x, distance)?;
    push(stack, Word::Long(value))
}

#[tactic(auto, unfolding(crate::specs::Groups::convert))]
fn convert(stack: &mut Stack, kind: Kind, op: u8) -> Result<(), Fault>
    requires { IsSome stack.old.rest.below.key }
    ensures does { Does result (convert kind op stack.old.operands) stack.new.operands }
    ensures depth { stack.new.operands.depth ≡ stack.old.operands.depth }
    ensures rest { stack.new.rest ≡ stack.old.rest }
{
    let x = pop(stack, kind)?;
    let word = word_of(op, x)?;
    push(stack, word)
}

#[tactic(auto, unfolding(crate::specs::Groups::compare))]
fn compare(stack: &mut Stack) -> Result<(), Fault>
    requires { IsSome stack.old.rest.below.key }
    ensures does { Does result (compare stack.old.operands) stack.new.operands }
    ensures depth { stack.new.operands.depth ≡ stack.old.operands.depth }
    ensures rest { stack.new.rest ≡ stack.old.rest }
{
    let y = pop_long(stack)?;
    let x = pop_long(stack)?;
    push_int(stack, mvm_arith::compare(x, y))
}

#[tactic(auto, unfolding(crate::specs::Groups::operate))]
pub(crate) fn operate(stack: &mut Stack, operation: Operation, op: u8) -> Result<(), Fault>
    requires { IsSome stack.old.rest.below.key }
    ensures does { Does result (operate operation op stack.old.operands) stack.new.operands }
    ensures depth { stack.new.operands.depth ≡ stack.old.operands.depth }
    ensures rest { stack.new.rest ≡ stack.old.rest }
{
    match operation {
        Operation::Nothing => Ok(()),
        Operation::PushNull => push(stack, Word::Null),
        Operation::PushInt(value) => push_int(stack, i32::from(value)),
        Operation::PushLong(value) => push(stack, Word::Long(i64::from(value))),
        Operation::Shuffle => shuffle(stack, op),
        Operation::Ints => ints(stack, op),
        Operation::NegateInt => negate_int(stack, op),
        Operation::Longs => longs(stack, op),
        Operation::NegateLong => negate_long(stack, op),
        Operation::ShiftLong => shift_long(stack, op),
        Operation::Convert(kind) => convert(stack, kind, op),
        Operation::Compare => compare(stack),
    }
}
