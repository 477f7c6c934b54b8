//! The values on the operands of the current frame (JVM Specification 2.6.2), with every refusal a VerifyError.

ghost use Rattle.std.specs.Prelude.{◌≡◌, ◌≢◌, IsSome, IfErr, OnErr};
ghost use Rattle.mvm_base.specs.Answers.{Does, Gives};
ghost use Rattle.mvm_isolate.specs.Numbered.{Numbered};
ghost use Rattle.mvm_current.specs.Frames.{popped, pushed};
ghost use Rattle.mvm_current.specs.Keys.{top_named};
ghost use Rattle.mvm_current.specs.Values.{may_push, popped_int, width};

use mvm_base::{Kind, Word};
use mvm_frame::Stack;
use mvm_isolate::Stop;
use mvm_native::Thrown;

/// Takes the value of a kind that is on top of the operands.
///
/// # Errors
///
/// A `VerifyError` where there is none of that kind.
#[tactic(auto, unfolding(crate::specs::Frames::popped), using(crate::proofs::Framing::framing))]
#[inline]
pub fn pop(stack: &mut Stack, kind: Kind) -> Result<Word, Stop>
    requires { IsSome stack.old.rest.below.key }
    ensures does { (n : Numbered) → Gives result (popped kind (top_named n stack.old)) (top_named n stack.new) }
    ensures depth { stack.new.operands.depth ≡ stack.old.operands.depth }
    ensures rest { stack.new.rest ≡ stack.old.rest }
    ensures err { OnErr result (stack.new ≡ stack.old) }
    ensures memory { IfErr result (λ stop. stop ≢ Stop.OutOfMemory) }
{
    match stack.pop(kind) {
        Ok(word) => Ok(word),
        Err(_) => Err(Stop::Throw(Thrown::VerifyError)),
    }
}

/// Takes the int that is on top of the operands.
///
/// # Errors
///
/// A `VerifyError` where there is none.
#[tactic(auto, unfolding(crate::specs::Values::popped_int))]
#[inline]
pub fn pop_int(stack: &mut Stack) -> Result<i32, Stop>
    requires { IsSome stack.old.rest.below.key }
    ensures does { (n : Numbered) → Gives result (popped_int (top_named n stack.old)) (top_named n stack.new) }
    ensures depth { stack.new.operands.depth ≡ stack.old.operands.depth }
    ensures rest { stack.new.rest ≡ stack.old.rest }
    ensures memory { IfErr result (λ stop. stop ≢ Stop.OutOfMemory) }
{
    match pop(stack, Kind::Int)? {
        Word::Int(value) => Ok(value),
        Word::Long(_) | Word::Ref(_) | Word::Null => Err(Stop::Throw(Thrown::VerifyError)),
    }
}

/// Puts a value on top of the operands.
///
/// # Errors
///
/// A `VerifyError` where it does not fit.
#[tactic(auto, unfolding(crate::specs::Frames::pushed), using(crate::proofs::Framing::framing))]
#[inline]
pub fn push(stack: &mut Stack, word: Word) -> Result<(), Stop>
    requires { IsSome stack.old.rest.below.key }
    ensures does { (n : Numbered) → Does result (pushed word (top_named n stack.old)) (top_named n stack.new) }
    ensures depth { stack.new.operands.depth ≡ stack.old.operands.depth }
    ensures rest { stack.new.rest ≡ stack.old.rest }
    ensures err { OnErr result (stack.new ≡ stack.old) }
    ensures memory { IfErr result (λ stop. stop ≢ Stop.OutOfMemory) }
{
    match stack.push(word) {
        Ok(()) => Ok(()),
        Err(_) => Err(Stop::Throw(Thrown::VerifyError)),
    }
}

/// How many slots a value of a kind takes (JVM Specification 2.6.2).
#[inline]
pub(crate) fn width(kind: Kind) -> usize
    ensures { result ≡ width kind }
{
    match kind {
        Kind::Long => 2,
        Kind::Int | Kind::Ref => 1,
    }
}

/// Whether a value of a kind fits on the operands: for what is made only to be pushed.
///
/// # Errors
///
/// A `VerifyError` where it does not.
#[tactic(auto, unfolding(crate::specs::Values::may_push))]
#[inline]
pub fn may_push(stack: &Stack, kind: Kind) -> Result<(), Stop>
    ensures is { (n : Numbered) → result ≡ may_push kind (top_named n stack.now) }
    ensures memory { IfErr result (λ stop. stop ≢ Stop.OutOfMemory) }
{
    if width(kind) <= stack.room() {
        Ok(())
    } else {
        Err(Stop::Throw(Thrown::VerifyError))
    }
}
