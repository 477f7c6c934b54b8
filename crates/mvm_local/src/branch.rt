//! Whether a branch is taken, and where to (JVM Specification 6.5). After a fault the operands may be different.

ghost use Rattle.std.specs.Prelude.{◌≡◌, IsSome};
ghost use Rattle.mvm_base.specs.Answers.{Gives};
ghost use Rattle.mvm_local.specs.Groups.{zero_test, ints_test, same_test, null_test, tested, place_of, place_after};

use crate::action::{Condition, Test};
use crate::compute::{holds, is_null, is_same};
use crate::fault::Fault;
use crate::moves::{pop, pop_int};
use mvm_base::Kind;
use mvm_frame::Stack;

#[tactic(auto, unfolding(crate::specs::Groups::zero_test))]
fn zero_test(stack: &mut Stack, condition: Condition) -> Result<bool, Fault>
    requires { IsSome stack.old.rest.below.key }
    ensures does { Gives result (zero_test condition stack.old.operands) stack.new.operands }
    ensures depth { stack.new.operands.depth ≡ stack.old.operands.depth }
    ensures rest { stack.new.rest ≡ stack.old.rest }
{
    let x = pop_int(stack)?;
    Ok(holds(condition, x, 0))
}

#[tactic(auto, unfolding(crate::specs::Groups::ints_test))]
fn ints_test(stack: &mut Stack, condition: Condition) -> Result<bool, Fault>
    requires { IsSome stack.old.rest.below.key }
    ensures does { Gives result (ints_test condition stack.old.operands) stack.new.operands }
    ensures depth { stack.new.operands.depth ≡ stack.old.operands.depth }
    ensures rest { stack.new.rest ≡ stack.old.rest }
{
    let y = pop_int(stack)?;
    let x = pop_int(stack)?;
    Ok(holds(condition, x, y))
}

#[tactic(auto, unfolding(crate::specs::Groups::same_test))]
fn same_test(stack: &mut Stack) -> Result<bool, Fault>
    requires { IsSome stack.old.rest.below.key }
    ensures does { Gives result (same_test stack.old.operands) stack.new.operands }
    ensures depth { stack.new.operands.depth ≡ stack.old.operands.depth }
    ensures rest { stack.new.rest ≡ stack.old.rest }
{
    let y = pop(stack, Kind::Ref)?;
    let x = pop(stack, Kind::Ref)?;
    Ok(is_same(x, y))
}

#[tactic(auto, unfolding(crate::specs::Groups::null_test))]
fn null_test(stack: &mut Stack) -> Result<bool, Fault>
    requires { IsSome stack.old.rest.below.key }
    ensures does { Gives result (null_test stack.old.operands) stack.new.operands }
    ensures depth { stack.new.operands.depth ≡ stack.old.operands.depth }
    ensures rest { stack.new.rest ≡ stack.old.rest }
{
    let x = pop(stack, Kind::Ref)?;
    Ok(is_null(x))
}

/// Whether the branch is taken.
#[tactic(auto, unfolding(crate::specs::Groups::tested))]
pub(crate) fn tested(stack: &mut Stack, test: Test) -> Result<bool, Fault>
    requires { IsSome stack.old.rest.below.key }
    ensures does { Gives result (tested test stack.old.operands) stack.new.operands }
    ensures depth { stack.new.operands.depth ≡ stack.old.operands.depth }
    ensures rest { stack.new.rest ≡ stack.old.rest }
{
    match test {
        Test::Always => Ok(true),
        Test::Zero(condition) => zero_test(stack, condition),
        Test::Ints(condition) => ints_test(stack, condition),
        Test::Same => same_test(stack),
        Test::Different => Ok(!same_test(stack)?),
        Test::Null => null_test(stack),
        Test::NonNull => Ok(!null_test(stack)?),
    }
}

/// A target as a place in the code.
#[tactic(auto, unfolding(crate::specs::Groups::place_of))]
#[inline]
pub(crate) fn place_of(target: i64) -> Result<u32, Fault>
    ensures { result ≡ place_of target }
{
    if target < 0 || target > i64::from(u32::MAX) {
        return Err(Fault::Verify);
    }
    Ok(target as u32)
}

/// Where the next instruction is after a branch.
#[tactic(auto, unfolding(crate::specs::Groups::place_after))]
#[inline]
pub(crate) fn place_after(taken: bool, target: i64, next: u32) -> Result<u32, Fault>
    ensures { result ≡ place_after taken target next }
{
    if taken { place_of(target) } else { Ok(next) }
}
