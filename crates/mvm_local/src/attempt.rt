ghost use Rattle.std.specs.Prelude.{◌≡◌, ◌<◌, ◌^◌, length, slice_get, Some, IfOk, IsSome, OnErr, OnSome};
ghost use Rattle.mvm_base.specs.Answers.{Gives};
ghost use Rattle.mvm_local.specs.Rows.{action_of, action_at};
ghost use Rattle.mvm_local.specs.Body.{body_of};
ghost use Rattle.mvm_local.specs.Attempts.{attempt};

use crate::action::{Action, Test};
use crate::action_rows::action_of;
use crate::beyond::{Beyond, BeyondAt, further};
use crate::bytes::{byte_at, short_at, signed_byte, signed_short, target_from};
use crate::decoded::decoded;
use crate::fault::Fault;
use crate::perform::{branch, increment, load, number, operated, store};
use mvm_base::Kind;
use mvm_frame::Stack;
use mvm_insn::{Operands, operands_of};

/// A load of the local variable whose number stands in the byte behind the opcode.
fn load_at(stack: &mut Stack, code: &[u8], pc: u32, kind: Kind) -> Result<Option<BeyondAt>, Fault>
    requires frame { IsSome stack.old.rest.below.key }
    requires short { length code.now < 2 ^ 32 }
    requires pc { stack.old.rest.pc ≡ pc }
    requires action { action_at pc code.now ≡ Action.Load kind }
    ensures does { Gives result (attempt code.now (body_of stack.old)) (body_of stack.new) }
    ensures below { stack.new.rest.below ≡ stack.old.rest.below }
    ensures depth { stack.new.operands.depth ≡ stack.old.operands.depth }
    ensures err { OnErr result (stack.new.rest ≡ stack.old.rest) }
    ensures beyond { IfOk result (λ further. OnSome further (stack.new ≡ stack.old)) }
{
    let next = pc + 1;
    match byte_at(code, next) {
        Some(local) => load(stack, kind, u16::from(local), next + 1),
        None => decoded(stack, code),
    }
}

/// A store in the same way.
fn store_at(stack: &mut Stack, code: &[u8], pc: u32, kind: Kind) -> Result<Option<BeyondAt>, Fault>
    requires frame { IsSome stack.old.rest.below.key }
    requires short { length code.now < 2 ^ 32 }
    requires pc { stack.old.rest.pc ≡ pc }
    requires action { action_at pc code.now ≡ Action.Store kind }
    ensures does { Gives result (attempt code.now (body_of stack.old)) (body_of stack.new) }
    ensures below { stack.new.rest.below ≡ stack.old.rest.below }
    ensures depth { stack.new.operands.depth ≡ stack.old.operands.depth }
    ensures err { OnErr result (stack.new.rest ≡ stack.old.rest) }
    ensures beyond { IfOk result (λ further. OnSome further (stack.new ≡ stack.old)) }
{
    let next = pc + 1;
    match byte_at(code, next) {
        Some(local) => store(stack, kind, u16::from(local), next + 1),
        None => decoded(stack, code),
    }
}

/// `bipush`.
fn push_byte_at(stack: &mut Stack, code: &[u8], pc: u32) -> Result<Option<BeyondAt>, Fault>
    requires frame { IsSome stack.old.rest.below.key }
    requires short { length code.now < 2 ^ 32 }
    requires pc { stack.old.rest.pc ≡ pc }
    requires action { action_at pc code.now ≡ Action.PushByte }
    ensures does { Gives result (attempt code.now (body_of stack.old)) (body_of stack.new) }
    ensures below { stack.new.rest.below ≡ stack.old.rest.below }
    ensures depth { stack.new.operands.depth ≡ stack.old.operands.depth }
    ensures err { OnErr result (stack.new.rest ≡ stack.old.rest) }
    ensures beyond { IfOk result (λ further. OnSome further (stack.new ≡ stack.old)) }
{
    let next = pc + 1;
    match byte_at(code, next) {
        Some(byte) => number(stack, signed_byte(byte), next + 1),
        None => decoded(stack, code),
    }
}

/// `sipush`.
fn push_short_at(stack: &mut Stack, code: &[u8], pc: u32) -> Result<Option<BeyondAt>, Fault>
    requires frame { IsSome stack.old.rest.below.key }
    requires short { length code.now < 2 ^ 32 }
    requires pc { stack.old.rest.pc ≡ pc }
    requires action { action_at pc code.now ≡ Action.PushShort }
    ensures does { Gives result (attempt code.now (body_of stack.old)) (body_of stack.new) }
    ensures below { stack.new.rest.below ≡ stack.old.rest.below }
    ensures depth { stack.new.operands.depth ≡ stack.old.operands.depth }
    ensures err { OnErr result (stack.new.rest ≡ stack.old.rest) }
    ensures beyond { IfOk result (λ further. OnSome further (stack.new ≡ stack.old)) }
{
    let next = pc + 1;
    match short_at(code, next) {
        Some(short) => number(stack, signed_short(short), next + 2),
        None => decoded(stack, code),
    }
}

/// `iinc`.
fn increment_at(stack: &mut Stack, code: &[u8], pc: u32) -> Result<Option<BeyondAt>, Fault>
    requires frame { IsSome stack.old.rest.below.key }
    requires short { length code.now < 2 ^ 32 }
    requires pc { stack.old.rest.pc ≡ pc }
    requires action { action_at pc code.now ≡ Action.Increment }
    ensures does { Gives result (attempt code.now (body_of stack.old)) (body_of stack.new) }
    ensures below { stack.new.rest.below ≡ stack.old.rest.below }
    ensures depth { stack.new.operands.depth ≡ stack.old.operands.depth }
    ensures err { OnErr result (stack.new.rest ≡ stack.old.rest) }
    ensures beyond { IfOk result (λ further. OnSome further (stack.new ≡ stack.old)) }
{
    let next = pc + 1;
    match byte_at(code, next) {
        Some(local) => match byte_at(code, next + 1) {
            Some(by) => increment(stack, u16::from(local), signed_byte(by), next + 1 + 1),
            None => decoded(stack, code),
        },
        None => decoded(stack, code),
    }
}

/// A branch whose offset from the opcode stands in the two bytes behind it.
fn branch_at(stack: &mut Stack, code: &[u8], pc: u32, test: Test) -> Result<Option<BeyondAt>, Fault>
    requires frame { IsSome stack.old.rest.below.key }
    requires short { length code.now < 2 ^ 32 }
    requires pc { stack.old.rest.pc ≡ pc }
    requires action { action_at pc code.now ≡ Action.Branch test }
    ensures does { Gives result (attempt code.now (body_of stack.old)) (body_of stack.new) }
    ensures below { stack.new.rest.below ≡ stack.old.rest.below }
    ensures depth { stack.new.operands.depth ≡ stack.old.operands.depth }
    ensures err { OnErr result (stack.new.rest ≡ stack.old.rest) }
    ensures beyond { IfOk result (λ further. OnSome further (stack.new ≡ stack.old)) }
{
    let next = pc + 1;
    match short_at(code, next) {
        Some(offset) => branch(stack, test, target_from(pc, offset), next + 2),
        None => decoded(stack, code),
    }
}

/// An instruction that reaches beyond its frame.
fn beyond_at(stack: &mut Stack, code: &[u8], pc: u32, op: u8) -> Result<Option<BeyondAt>, Fault>
    requires frame { IsSome stack.old.rest.below.key }
    requires short { length code.now < 2 ^ 32 }
    requires pc { stack.old.rest.pc ≡ pc }
    requires op { slice_get code.now pc ≡ Some op }
    requires action { action_of op ≡ Action.Beyond }
    ensures does { Gives result (attempt code.now (body_of stack.old)) (body_of stack.new) }
    ensures below { stack.new.rest.below ≡ stack.old.rest.below }
    ensures depth { stack.new.operands.depth ≡ stack.old.operands.depth }
    ensures err { OnErr result (stack.new.rest ≡ stack.old.rest) }
    ensures beyond { IfOk result (λ further. OnSome further (stack.new ≡ stack.old)) }
{
    let next = pc + 1;
    match operands_of(op) {
        Operands::Alone => Ok(further(Beyond::Plain { op }, next)),
        Operands::ShortPool => match short_at(code, next) {
            Some(index) => Ok(further(Beyond::Pool { op, index }, next + 2)),
            None => decoded(stack, code),
        },
        _ => decoded(stack, code),
    }
}

/// One attempt of the instruction of an opcode.
#[inline]
fn attempt_at(stack: &mut Stack, code: &[u8], pc: u32, op: u8) -> Result<Option<BeyondAt>, Fault>
    requires frame { IsSome stack.old.rest.below.key }
    requires short { length code.now < 2 ^ 32 }
    requires pc { stack.old.rest.pc ≡ pc }
    requires op { slice_get code.now pc ≡ Some op }
    ensures does { Gives result (attempt code.now (body_of stack.old)) (body_of stack.new) }
    ensures below { stack.new.rest.below ≡ stack.old.rest.below }
    ensures depth { stack.new.operands.depth ≡ stack.old.operands.depth }
    ensures err { OnErr result (stack.new.rest ≡ stack.old.rest) }
    ensures beyond { IfOk result (λ further. OnSome further (stack.new ≡ stack.old)) }
{
    match action_of(op) {
        Action::Operate(operation) => operated(stack, operation, op, pc + 1),
        Action::LoadFrom(kind, local) => load(stack, kind, u16::from(local), pc + 1),
        Action::StoreTo(kind, local) => store(stack, kind, u16::from(local), pc + 1),
        Action::Load(kind) => load_at(stack, code, pc, kind),
        Action::Store(kind) => store_at(stack, code, pc, kind),
        Action::PushByte => push_byte_at(stack, code, pc),
        Action::PushShort => push_short_at(stack, code, pc),
        Action::Increment => increment_at(stack, code, pc),
        Action::Branch(test) => branch_at(stack, code, pc, test),
        Action::Beyond => beyond_at(stack, code, pc, op),
        Action::LongGoto | Action::Switch | Action::Wide | Action::Absent => decoded(stack, code),
    }
}

/// One attempt of the instruction at the pc of the top frame (JVM Specification 2.11 and 6.5); `code` is that of its method. Where
/// the instruction touches this frame alone, it is done, and the pc is that of the next one. Where it reaches beyond
/// its frame, it is told with its operands, and nothing is done. There is a frame. After a fault its operands may be different, and
/// nothing else is.
pub fn run_local(stack: &mut Stack, code: &[u8]) -> Result<Option<BeyondAt>, Fault>
    requires frame { IsSome stack.old.rest.below.key }
    requires short { length code.now < 2 ^ 32 }
    ensures does { Gives result (attempt code.now (body_of stack.old)) (body_of stack.new) }
    // The key of the frame and its callers.
    ensures below { stack.new.rest.below ≡ stack.old.rest.below }
    ensures depth { stack.new.operands.depth ≡ stack.old.operands.depth }
    // The pc and the local variables too.
    ensures err { OnErr result (stack.new.rest ≡ stack.old.rest) }
    // Nothing is done of an instruction that reaches beyond its frame.
    ensures beyond { IfOk result (λ further. OnSome further (stack.new ≡ stack.old)) }
{
    let pc = stack.pc();
    match code.get(pc as usize) {
        Some(op) => attempt_at(stack, code, pc, *op),
        None => decoded(stack, code),
    }
}
