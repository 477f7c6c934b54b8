//! The moves of the top frame, with every refusal a VerifyError.

ghost use Rattle.std.specs.Prelude.{◌≡◌, IsSome, OnErr};
ghost use Rattle.mvm_base.specs.Answers.{Does, Gives};
ghost use Rattle.mvm_local.specs.Body.{pushed, popped, popped_int, popped_long, variable, int_variable, stored, verified};

use crate::fault::Fault;
use mvm_base::{Kind, Word};
use mvm_frame::Stack;

#[tactic(auto, unfolding(crate::specs::Body::pushed), using(crate::proofs::Framing::framing))]
#[inline]
pub(crate) fn push(stack: &mut Stack, word: Word) -> Result<(), Fault>
    requires { IsSome stack.old.rest.below.key }
    ensures does { Does result (pushed word stack.old.operands) stack.new.operands }
    ensures depth { stack.new.operands.depth ≡ stack.old.operands.depth }
    ensures rest { stack.new.rest ≡ stack.old.rest }
{
    match stack.push(word) {
        Ok(()) => Ok(()),
        Err(_) => Err(Fault::Verify),
    }
}

#[tactic(auto, unfolding(crate::specs::Body::pushed), using(crate::proofs::Framing::framing))]
#[inline]
pub(crate) fn push_int(stack: &mut Stack, value: i32) -> Result<(), Fault>
    requires { IsSome stack.old.rest.below.key }
    ensures does { Does result (pushed (Word.Int value) stack.old.operands) stack.new.operands }
    ensures depth { stack.new.operands.depth ≡ stack.old.operands.depth }
    ensures rest { stack.new.rest ≡ stack.old.rest }
{
    match stack.push_int(value) {
        Ok(()) => Ok(()),
        Err(_) => Err(Fault::Verify),
    }
}

#[tactic(auto, unfolding(crate::specs::Body::popped), using(crate::proofs::Framing::framing))]
#[inline]
pub(crate) fn pop(stack: &mut Stack, kind: Kind) -> Result<Word, Fault>
    requires { IsSome stack.old.rest.below.key }
    ensures does { Gives result (popped kind stack.old.operands) stack.new.operands }
    ensures depth { stack.new.operands.depth ≡ stack.old.operands.depth }
    ensures rest { stack.new.rest ≡ stack.old.rest }
{
    match stack.pop(kind) {
        Ok(word) => Ok(word),
        Err(_) => Err(Fault::Verify),
    }
}

#[tactic(auto, unfolding(crate::specs::Body::popped_int))]
#[inline]
pub(crate) fn pop_int(stack: &mut Stack) -> Result<i32, Fault>
    requires { IsSome stack.old.rest.below.key }
    ensures does { Gives result (popped_int stack.old.operands) stack.new.operands }
    ensures depth { stack.new.operands.depth ≡ stack.old.operands.depth }
    ensures rest { stack.new.rest ≡ stack.old.rest }
{
    match pop(stack, Kind::Int)? {
        Word::Int(value) => Ok(value),
        Word::Long(_) | Word::Ref(_) | Word::Null => Err(Fault::Verify),
    }
}

#[tactic(auto, unfolding(crate::specs::Body::popped_long))]
#[inline]
pub(crate) fn pop_long(stack: &mut Stack) -> Result<i64, Fault>
    requires { IsSome stack.old.rest.below.key }
    ensures does { Gives result (popped_long stack.old.operands) stack.new.operands }
    ensures depth { stack.new.operands.depth ≡ stack.old.operands.depth }
    ensures rest { stack.new.rest ≡ stack.old.rest }
{
    match pop(stack, Kind::Long)? {
        Word::Long(value) => Ok(value),
        Word::Int(_) | Word::Ref(_) | Word::Null => Err(Fault::Verify),
    }
}

/// The value of a kind in a local variable.
#[tactic(auto, unfolding(crate::specs::Body::variable), using(crate::proofs::Framing::framing))]
#[inline]
pub(crate) fn variable(stack: &Stack, kind: Kind, local: u16) -> Result<Word, Fault>
    requires { IsSome stack.now.rest.below.key }
    ensures { result ≡ variable kind local stack.now.rest.locals }
{
    match stack.load(local, kind) {
        Ok(word) => Ok(word),
        Err(_) => Err(Fault::Verify),
    }
}

/// The int in a local variable.
#[tactic(auto, unfolding(crate::specs::Body::int_variable))]
#[inline]
pub(crate) fn int_variable(stack: &Stack, local: u16) -> Result<i32, Fault>
    requires { IsSome stack.now.rest.below.key }
    ensures { result ≡ int_variable local stack.now.rest.locals }
{
    match variable(stack, Kind::Int, local)? {
        Word::Int(value) => Ok(value),
        Word::Long(_) | Word::Ref(_) | Word::Null => Err(Fault::Verify),
    }
}

/// A value goes into a local variable.
#[tactic(auto, unfolding(crate::specs::Body::stored), using(crate::proofs::Framing::framing))]
#[inline]
pub(crate) fn set_variable(stack: &mut Stack, local: u16, word: Word) -> Result<(), Fault>
    requires { IsSome stack.old.rest.below.key }
    ensures operands { stack.new.operands ≡ stack.old.operands }
    ensures does { Does result (stored local word stack.old.rest.locals) stack.new.rest.locals }
    ensures rest { stack.new.rest ≡ record stack.old.rest { locals = stack.new.rest.locals } }
    ensures err { OnErr result (stack.new ≡ stack.old) }
{
    match stack.store(local, word) {
        Ok(()) => Ok(()),
        Err(_) => Err(Fault::Verify),
    }
}
