//! Whole instructions, group by group (JVM Specification 6.5). After a fault the operands may be different.

ghost use Rattle.std.specs.Prelude.{◌≡◌, ◌+ℤ◌, IfOk, IsSome, OnErr, OnSome};
ghost use Rattle.std.specs.Int.{w32};
ghost use Rattle.mvm_base.specs.Answers.{Gives};
ghost use Rattle.mvm_arith.specs.Numbers.{reduced};
ghost use Rattle.mvm_local.specs.Body.{body_of};
ghost use Rattle.mvm_local.specs.Groups.{operated, number, load, store, increment, branch, switch};

use crate::action::{Operation, Test};
use crate::beyond::BeyondAt;
use crate::branch::{place_after, place_of, tested};
use crate::fault::Fault;
use crate::moves::{int_variable, pop, pop_int, push, push_int, set_variable, variable};
use crate::operate::operate;
use mvm_base::{Kind, Word};
use mvm_frame::Stack;
use mvm_insn::Switch;

#[tactic(auto, unfolding(crate::specs::Groups::operated))]
pub(crate) fn operated(
    stack: &mut Stack,
    operation: Operation,
    op: u8,
    next: u32,
) -> Result<Option<BeyondAt>, Fault>
    requires { IsSome stack.old.rest.below.key }
    ensures does { Gives result (operated operation op next (body_of stack.old)) (body_of stack.new) }
    ensures below { stack.new.rest.below ≡ stack.old.rest.below }
    ensures depth { stack.new.operands.depth ≡ stack.old.operands.depth }
    ensures err { OnErr result (stack.new.rest ≡ stack.old.rest) }
    ensures beyond { IfOk result (λ further. OnSome further (stack.new ≡ stack.old)) }
{
    operate(stack, operation, op)?;
    stack.set_pc(next);
    Ok(None)
}

#[tactic(auto, unfolding(crate::specs::Groups::number))]
pub(crate) fn number(stack: &mut Stack, value: i32, next: u32) -> Result<Option<BeyondAt>, Fault>
    requires { IsSome stack.old.rest.below.key }
    ensures does { Gives result (number value next (body_of stack.old)) (body_of stack.new) }
    ensures below { stack.new.rest.below ≡ stack.old.rest.below }
    ensures depth { stack.new.operands.depth ≡ stack.old.operands.depth }
    ensures err { OnErr result (stack.new.rest ≡ stack.old.rest) }
    ensures beyond { IfOk result (λ further. OnSome further (stack.new ≡ stack.old)) }
{
    push_int(stack, value)?;
    stack.set_pc(next);
    Ok(None)
}

#[tactic(auto, unfolding(crate::specs::Groups::load))]
pub(crate) fn load(
    stack: &mut Stack,
    kind: Kind,
    local: u16,
    next: u32,
) -> Result<Option<BeyondAt>, Fault>
    requires { IsSome stack.old.rest.below.key }
    ensures does { Gives result (load kind local next (body_of stack.old)) (body_of stack.new) }
    ensures below { stack.new.rest.below ≡ stack.old.rest.below }
    ensures depth { stack.new.operands.depth ≡ stack.old.operands.depth }
    ensures err { OnErr result (stack.new.rest ≡ stack.old.rest) }
    ensures beyond { IfOk result (λ further. OnSome further (stack.new ≡ stack.old)) }
{
    let word = variable(stack, kind, local)?;
    push(stack, word)?;
    stack.set_pc(next);
    Ok(None)
}

#[tactic(auto, unfolding(crate::specs::Groups::store))]
pub(crate) fn store(
    stack: &mut Stack,
    kind: Kind,
    local: u16,
    next: u32,
) -> Result<Option<BeyondAt>, Fault>
    requires { IsSome stack.old.rest.below.key }
    ensures does { Gives result (store kind local next (body_of stack.old)) (body_of stack.new) }
    ensures below { stack.new.rest.below ≡ stack.old.rest.below }
    ensures depth { stack.new.operands.depth ≡ stack.old.operands.depth }
    ensures err { OnErr result (stack.new.rest ≡ stack.old.rest) }
    ensures beyond { IfOk result (λ further. OnSome further (stack.new ≡ stack.old)) }
{
    let word = pop(stack, kind)?;
    set_variable(stack, local, word)?;
    stack.set_pc(next);
    Ok(None)
}

/// The sum in 32 bits (JVM Specification 2.3.1).
#[tactic(auto, using(std::proofs::lemmas::Int::wrapping_add_is))]
#[inline]
fn sum(value: i32, by: i32) -> i32
    ensures { result ≡ reduced w32 (value +ℤ by) }
{
    value.wrapping_add(by)
}

#[tactic(auto, unfolding(crate::specs::Groups::increment))]
pub(crate) fn increment(
    stack: &mut Stack,
    local: u16,
    by: i32,
    next: u32,
) -> Result<Option<BeyondAt>, Fault>
    requires { IsSome stack.old.rest.below.key }
    ensures does { Gives result (increment local by next (body_of stack.old)) (body_of stack.new) }
    ensures below { stack.new.rest.below ≡ stack.old.rest.below }
    ensures depth { stack.new.operands.depth ≡ stack.old.operands.depth }
    ensures err { OnErr result (stack.new.rest ≡ stack.old.rest) }
    ensures beyond { IfOk result (λ further. OnSome further (stack.new ≡ stack.old)) }
{
    let value = int_variable(stack, local)?;
    let sum = sum(value, by);
    set_variable(stack, local, Word::Int(sum))?;
    stack.set_pc(next);
    Ok(None)
}

#[tactic(auto, unfolding(crate::specs::Groups::branch))]
pub(crate) fn branch(
    stack: &mut Stack,
    test: Test,
    target: i64,
    next: u32,
) -> Result<Option<BeyondAt>, Fault>
    requires { IsSome stack.old.rest.below.key }
    ensures does { Gives result (branch test target next (body_of stack.old)) (body_of stack.new) }
    ensures below { stack.new.rest.below ≡ stack.old.rest.below }
    ensures depth { stack.new.operands.depth ≡ stack.old.operands.depth }
    ensures err { OnErr result (stack.new.rest ≡ stack.old.rest) }
    ensures beyond { IfOk result (λ further. OnSome further (stack.new ≡ stack.old)) }
{
    let taken = tested(stack, test)?;
    let place = place_after(taken, target, next)?;
    stack.set_pc(place);
    Ok(None)
}

#[tactic(auto, unfolding(crate::specs::Groups::switch))]
pub(crate) fn switch(stack: &mut Stack, rows: &Switch) -> Result<Option<BeyondAt>, Fault>
    requires { IsSome stack.old.rest.below.key }
    ensures does { Gives result (switch rows.now (body_of stack.old)) (body_of stack.new) }
    ensures below { stack.new.rest.below ≡ stack.old.rest.below }
    ensures depth { stack.new.operands.depth ≡ stack.old.operands.depth }
    ensures err { OnErr result (stack.new.rest ≡ stack.old.rest) }
    ensures beyond { IfOk result (λ further. OnSome further (stack.new ≡ stack.old)) }
{
    let key = pop_int(stack)?;
    let place = place_of(rows.target(key))?;
    stack.set_pc(place);
    Ok(None)
}
