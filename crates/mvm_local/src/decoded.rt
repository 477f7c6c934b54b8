//! Instructions as `mvm_insn` decodes them.

ghost use Rattle.std.specs.Prelude.{◌≡◌, ◌<◌, ◌^◌, length, IfOk, IsSome, OnErr, OnSome};
ghost use Rattle.mvm_base.specs.Answers.{Gives};
ghost use Rattle.mvm_local.specs.Body.{body_of};
ghost use Rattle.mvm_local.specs.Attempts.{plain, with_local, jump, performed, fetched, attempt};

use crate::action::{Action, Test};
use crate::action_rows::action_of;
use crate::beyond::{Beyond, BeyondAt, further};
use crate::fault::Fault;
use crate::perform::{branch, increment, load, number, operated, store, switch};
use mvm_frame::Stack;
use mvm_insn::{At, Insn, insn_at};

/// An instruction with nothing behind its opcode.
#[tactic(auto, unfolding(crate::specs::Attempts::plain))]
fn plain(stack: &mut Stack, action: Action, op: u8, next: u32) -> Result<Option<BeyondAt>, Fault>
    requires { IsSome stack.old.rest.below.key }
    ensures does { Gives result (plain action op next (body_of stack.old)) (body_of stack.new) }
    ensures below { stack.new.rest.below ≡ stack.old.rest.below }
    ensures depth { stack.new.operands.depth ≡ stack.old.operands.depth }
    ensures err { OnErr result (stack.new.rest ≡ stack.old.rest) }
    ensures beyond { IfOk result (λ further. OnSome further (stack.new ≡ stack.old)) }
{
    match action {
        Action::Operate(operation) => operated(stack, operation, op, next),
        Action::LoadFrom(kind, local) => load(stack, kind, u16::from(local), next),
        Action::StoreTo(kind, local) => store(stack, kind, u16::from(local), next),
        Action::Beyond => Ok(further(Beyond::Plain { op }, next)),
        Action::PushByte
        | Action::PushShort
        | Action::Load(_)
        | Action::Store(_)
        | Action::Increment
        | Action::Branch(_)
        | Action::LongGoto
        | Action::Switch
        | Action::Wide
        | Action::Absent => Err(Fault::Verify),
    }
}

/// An instruction that names a local variable.
#[tactic(auto, unfolding(crate::specs::Attempts::with_local))]
fn with_local(
    stack: &mut Stack,
    action: Action,
    local: u16,
    next: u32,
) -> Result<Option<BeyondAt>, Fault>
    requires { IsSome stack.old.rest.below.key }
    ensures does { Gives result (with_local action local next (body_of stack.old)) (body_of stack.new) }
    ensures below { stack.new.rest.below ≡ stack.old.rest.below }
    ensures depth { stack.new.operands.depth ≡ stack.old.operands.depth }
    ensures err { OnErr result (stack.new.rest ≡ stack.old.rest) }
    ensures beyond { IfOk result (λ further. OnSome further (stack.new ≡ stack.old)) }
{
    match action {
        Action::Load(kind) => load(stack, kind, local, next),
        Action::Store(kind) => store(stack, kind, local, next),
        Action::Operate(_)
        | Action::PushByte
        | Action::PushShort
        | Action::LoadFrom(_, _)
        | Action::StoreTo(_, _)
        | Action::Increment
        | Action::Branch(_)
        | Action::LongGoto
        | Action::Switch
        | Action::Wide
        | Action::Beyond
        | Action::Absent => Err(Fault::Verify),
    }
}

/// An instruction that names a place in the code.
#[tactic(auto, unfolding(crate::specs::Attempts::jump))]
fn jump(
    stack: &mut Stack,
    action: Action,
    target: i64,
    next: u32,
) -> Result<Option<BeyondAt>, Fault>
    requires { IsSome stack.old.rest.below.key }
    ensures does { Gives result (jump action target next (body_of stack.old)) (body_of stack.new) }
    ensures below { stack.new.rest.below ≡ stack.old.rest.below }
    ensures depth { stack.new.operands.depth ≡ stack.old.operands.depth }
    ensures err { OnErr result (stack.new.rest ≡ stack.old.rest) }
    ensures beyond { IfOk result (λ further. OnSome further (stack.new ≡ stack.old)) }
{
    match action {
        Action::Branch(test) => branch(stack, test, target, next),
        Action::LongGoto => branch(stack, Test::Always, target, next),
        Action::Operate(_)
        | Action::PushByte
        | Action::PushShort
        | Action::Load(_)
        | Action::LoadFrom(_, _)
        | Action::Store(_)
        | Action::StoreTo(_, _)
        | Action::Increment
        | Action::Switch
        | Action::Wide
        | Action::Beyond
        | Action::Absent => Err(Fault::Verify),
    }
}

#[tactic(auto, unfolding(crate::specs::Attempts::performed))]
fn performed(stack: &mut Stack, insn: &Insn, next: u32) -> Result<Option<BeyondAt>, Fault>
    requires { IsSome stack.old.rest.below.key }
    ensures does { Gives result (performed insn.now next (body_of stack.old)) (body_of stack.new) }
    ensures below { stack.new.rest.below ≡ stack.old.rest.below }
    ensures depth { stack.new.operands.depth ≡ stack.old.operands.depth }
    ensures err { OnErr result (stack.new.rest ≡ stack.old.rest) }
    ensures beyond { IfOk result (λ further. OnSome further (stack.new ≡ stack.old)) }
{
    match insn {
        Insn::Plain { op } => plain(stack, action_of(*op), *op, next),
        Insn::Number { value, .. } => number(stack, *value, next),
        Insn::Local { op, local, .. } => with_local(stack, action_of(*op), *local, next),
        Insn::Inc { local, by, .. } => increment(stack, *local, i32::from(*by), next),
        Insn::Jump { op, target } => jump(stack, action_of(*op), *target, next),
        Insn::Choice { rows, .. } => switch(stack, rows),
        Insn::Pool { op, index } => {
            let (op, index) = (*op, *index);
            Ok(further(Beyond::Pool { op, index }, next))
        }
        Insn::Interface { index, .. } => Ok(further(Beyond::Interface { index: *index }, next)),
        Insn::NewArray { kind } => Ok(further(Beyond::NewArray { kind: *kind }, next)),
        Insn::Multi { index, dims } => {
            let (index, dims) = (*index, *dims);
            Ok(further(Beyond::Multi { index, dims }, next))
        }
    }
}

/// The instruction at a place of the code.
#[tactic(auto, unfolding(crate::specs::Attempts::fetched))]
fn fetched<'a>(code: &'a [u8], pc: u32) -> Result<At<'a>, Fault>
    requires { length code.now < 2 ^ 32 }
    ensures { result ≡ fetched code.now pc }
{
    match insn_at(code, pc) {
        Ok(at) => Ok(at),
        Err(_) => Err(Fault::Verify),
    }
}

/// One attempt of whatever instruction stands at the pc.
#[tactic(auto, unfolding(crate::specs::Attempts::attempt))]
pub(crate) fn decoded(stack: &mut Stack, code: &[u8]) -> Result<Option<BeyondAt>, Fault>
    requires frame { IsSome stack.old.rest.below.key }
    requires short { length code.now < 2 ^ 32 }
    ensures does { Gives result (attempt code.now (body_of stack.old)) (body_of stack.new) }
    ensures below { stack.new.rest.below ≡ stack.old.rest.below }
    ensures depth { stack.new.operands.depth ≡ stack.old.operands.depth }
    ensures err { OnErr result (stack.new.rest ≡ stack.old.rest) }
    ensures beyond { IfOk result (λ further. OnSome further (stack.new ≡ stack.old)) }
{
    let at = fetched(code, stack.pc())?;
    performed(stack, &at.insn, at.next)
}
