//! Tests of types, and athrow (JVM Specification 6.5: checkcast, instanceof, athrow).

ghost use Rattle.std.specs.Prelude.{◌≡◌, Result, Err, IsSome, OnErr, codes};
ghost use Rattle.mvm_base.specs.Answers.{AnswersUnless, Fails};
ghost use Rattle.mvm_base.specs.declared.value.Kind.TheVariants as kind;
ghost use Rattle.mvm_isolate.specs.Numbered.{look_of, named, Numbered};
ghost use Rattle.mvm_isolate.specs.Types.{ReferenceType};
ghost use Rattle.mvm_isolate.specs.declared.stop.Stop.{Stop as StopOf};
ghost use Rattle.mvm_isolate.specs.declared.stop.Stop.TheVariants.{OutOfMemory};
ghost use Rattle.mvm_current.specs.Found.{HasType};
ghost use Rattle.mvm_current.specs.Frames.{popped};
ghost use Rattle.mvm_current.specs.Keys.{top_named, AreKeys, RunsMethod};
ghost use Rattle.mvm_object.specs.Coming.{point_of, GoesOn};
ghost use Rattle.mvm_object.specs.Going.{Context};
ghost use Rattle.mvm_object.specs.Objects.{answered, check_cast, instance_of, is_of_entry, is_of_type, passed, throw_object, thrown_object, top_object, truth, value_of};

use crate::fields::must_be;
use crate::going::pushing;
use mvm_base::{Kind, Name, Steps, Word};
use mvm_current::{TypeEntry, name_of, not_null, pop, type_entry};
use mvm_frame::{Slot, Stack};
use mvm_instance::{is_of_array, is_of_class};
use mvm_isolate::{Isolate, Stop};
use mvm_native::Thrown;
use mvm_table::Table;
use std::sync::ledger::Ledger;

/// The reference that is on top of the operands, where it stays.
///
/// # Errors
///
/// A `VerifyError` where there is none.
#[tactic(auto, unfolding(mvm_current::specs::Frames::popped, mvm_frame::specs::Calls::pop))]
pub fn top_reference(stack: &Stack) -> Result<Word, Stop>
    ensures { (n : Numbered) → result ≡ value_of (popped kind.Ref (top_named n stack.now)) }
{
    if stack.depth() == 0 {
        return Err(Stop::Throw(Thrown::VerifyError));
    }
    match stack.peek(0) {
        Slot::Ref(object) => Ok(Word::Ref(object)),
        Slot::Null => Ok(Word::Null),
        _ => Err(Stop::Throw(Thrown::VerifyError)),
    }
}

/// Whether an object is an instance of a type.
fn is_of_type<L: Ledger>(
    isolate: &Isolate,
    table: &Table,
    entry: &TypeEntry,
    object: u32,
    steps: &mut Steps<L>,
) -> Result<bool, Stop>
    requires files { table.now.files ≡ isolate.now.files }
    ensures { (definition : Result ReferenceType StopOf) → HasType entry.now definition → AnswersUnless Stop.OutOfMemory result (is_of_type (look_of isolate.now) definition object (named isolate.now)) }
{
    match entry {
        TypeEntry::Class(class) => {
            let name = name_of(class.get())?;
            Ok(is_of_class(isolate, name, object))
        }
        TypeEntry::Array(shape) => {
            is_of_array(isolate, table, shape.dims, &shape.base, object, steps)
        }
    }
}

/// Whether an object is an instance of the type of an entry.
///
/// # Errors
///
/// What is thrown for the first fault of the resolution, or a `VerifyError` where the entry is no type.
#[tactic(auto, unfolding(crate::specs::Objects::is_of_entry))]
pub fn is_of_entry<L: Ledger>(
    isolate: &Isolate,
    table: &Table,
    stack: &Stack,
    index: u16,
    object: u32,
    steps: &mut Steps<L>,
) -> Result<bool, Stop>
    requires files { table.now.files ≡ isolate.now.files }
    requires frame { IsSome stack.now.rest.below.key }
    requires keys { AreKeys isolate.now stack.now }
    ensures { AnswersUnless Stop.OutOfMemory result (is_of_entry (look_of isolate.now) index (top_named isolate.now stack.now) object (named isolate.now)) }
{
    let entry = type_entry(isolate, table, stack, index, steps)?;
    is_of_type(isolate, table, &entry, object, steps)
}

/// The reference on top of the operands passes.
///
/// # Errors
///
/// A `VerifyError` where there is none.
#[tactic(auto, unfolding(mvm_current::specs::Keys::callers_named))]
pub fn passes(stack: &mut Stack, next: u32) -> Result<(), Stop>
    requires frame { IsSome stack.old.rest.below.key }
    requires method { RunsMethod stack.old }
    ensures does { (c : Context) (n : Numbered) → GoesOn result (passed c next (point_of n stack.old)) n stack.new c.object }
    ensures below { stack.new.rest.below ≡ stack.old.rest.below }
    ensures rest { OnErr result (stack.new.rest ≡ stack.old.rest) }
    ensures depth { OnErr result (stack.new.operands.depth ≡ stack.old.operands.depth) }
    // Where memory ran out the stack is as before.
    ensures memory { result ≡ Err OutOfMemory → stack.new ≡ stack.old }
{
    let word = pop(stack, Kind::Ref)?;
    pushing(stack, word, next)
}

/// `checkcast`: null passes, and its type is not looked at. What may take memory comes before the reference is popped.
///
/// # Errors
///
/// What is thrown for the first fault of the resolution, a `ClassCastException`, or a `VerifyError` for what linked code has not.
#[tactic(auto, unfolding(crate::specs::Objects::check_cast))]
pub fn check_cast<L: Ledger>(
    isolate: &Isolate,
    table: &Table,
    stack: &mut Stack,
    index: u16,
    next: u32,
    steps: &mut Steps<L>,
) -> Result<(), Stop>
    requires files { table.now.files ≡ isolate.now.files }
    requires frame { IsSome stack.old.rest.below.key }
    requires method { RunsMethod stack.old }
    requires keys { AreKeys isolate.now stack.old }
    ensures does { (c : Context) → c.look ≡ look_of isolate.now → GoesOn result (check_cast c index next (point_of isolate.now stack.old)) isolate.now stack.new c.object }
    ensures below { stack.new.rest.below ≡ stack.old.rest.below }
    ensures rest { OnErr result (stack.new.rest ≡ stack.old.rest) }
    ensures depth { OnErr result (stack.new.operands.depth ≡ stack.old.operands.depth) }
    // Where memory ran out the stack is as before.
    ensures memory { result ≡ Err OutOfMemory → stack.new ≡ stack.old }
{
    match top_reference(stack)? {
        Word::Ref(object) => {
            if is_of_entry(isolate, table, stack, index, object, steps)? {
                passes(stack, next)
            } else {
                Err(Stop::Throw(Thrown::ClassCastException))
            }
        }
        Word::Null => passes(stack, next),
        Word::Int(_) | Word::Long(_) => Err(Stop::Throw(Thrown::VerifyError)),
    }
}

fn truth(is: bool) -> Word
    ensures { result ≡ truth is }
{
    if is { Word::Int(1) } else { Word::Int(0) }
}

/// A truth value stands on the operands in the place of the reference.
///
/// # Errors
///
/// A `VerifyError` where there is none.
#[tactic(auto, unfolding(mvm_current::specs::Keys::callers_named))]
pub fn answers(stack: &mut Stack, is: bool, next: u32) -> Result<(), Stop>
    requires frame { IsSome stack.old.rest.below.key }
    requires method { RunsMethod stack.old }
    ensures does { (c : Context) (n : Numbered) → GoesOn result (answered c next is (point_of n stack.old)) n stack.new c.object }
    ensures below { stack.new.rest.below ≡ stack.old.rest.below }
    ensures rest { OnErr result (stack.new.rest ≡ stack.old.rest) }
    ensures depth { OnErr result (stack.new.operands.depth ≡ stack.old.operands.depth) }
    // Where memory ran out the stack is as before.
    ensures memory { result ≡ Err OutOfMemory → stack.new ≡ stack.old }
{
    let _word = pop(stack, Kind::Ref)?;
    pushing(stack, truth(is), next)
}

/// `instanceof`: null is an instance of nothing. What may take memory comes before the reference is popped.
///
/// # Errors
///
/// What is thrown for the first fault of the resolution, or a `VerifyError` for what linked code has not.
#[tactic(auto, unfolding(crate::specs::Objects::instance_of))]
pub fn instance_of<L: Ledger>(
    isolate: &Isolate,
    table: &Table,
    stack: &mut Stack,
    index: u16,
    next: u32,
    steps: &mut Steps<L>,
) -> Result<(), Stop>
    requires files { table.now.files ≡ isolate.now.files }
    requires frame { IsSome stack.old.rest.below.key }
    requires method { RunsMethod stack.old }
    requires keys { AreKeys isolate.now stack.old }
    ensures does { (c : Context) → c.look ≡ look_of isolate.now → GoesOn result (instance_of c index next (point_of isolate.now stack.old)) isolate.now stack.new c.object }
    ensures below { stack.new.rest.below ≡ stack.old.rest.below }
    ensures rest { OnErr result (stack.new.rest ≡ stack.old.rest) }
    ensures depth { OnErr result (stack.new.operands.depth ≡ stack.old.operands.depth) }
    // Where memory ran out the stack is as before.
    ensures memory { result ≡ Err OutOfMemory → stack.new ≡ stack.old }
{
    match top_reference(stack)? {
        Word::Ref(object) => {
            let is = is_of_entry(isolate, table, stack, index, object, steps)?;
            answers(stack, is, next)
        }
        Word::Null => answers(stack, false, next),
        Word::Int(_) | Word::Long(_) => Err(Stop::Throw(Thrown::VerifyError)),
    }
}

/// The object that the reference on top of the operands refers to; the reference stays there. It takes no memory.
///
/// # Errors
///
/// A `NullPointerException`, or a `VerifyError` where no reference is on top.
pub fn top_object(stack: &Stack) -> Result<u32, Stop>
    ensures is { (n : Numbered) → result ≡ top_object (top_named n stack.now) }
{
    let word = top_reference(stack)?;
    not_null(word)
}

/// The object that is thrown: it is a `Throwable`.
#[tactic(auto, unfolding(crate::specs::Objects::thrown_object))]
fn thrown_object(isolate: &Isolate, stack: &Stack, name: &Name) -> Stop
    requires { name.now ≡ codes "java/lang/Throwable" }
    ensures { thrown_object (look_of isolate.now) (top_named isolate.now stack.now) (named isolate.now) ≡ Err result }
{
    match top_object(stack) {
        Ok(object) => match must_be(isolate, name, object) {
            Ok(()) => Stop::Object(object),
            Err(stop) => stop,
        },
        Err(stop) => stop,
    }
}

/// `athrow`: why the attempt stops. The stack stays as it is.
#[tactic(auto, unfolding(crate::specs::Objects::throw_object))]
pub fn throw_object(isolate: &Isolate, stack: &Stack) -> Stop
    requires { IsSome stack.now.rest.below.key }
    ensures { (c : Context) → c.look ≡ look_of isolate.now → Fails Stop.OutOfMemory result (throw_object c (point_of isolate.now stack.now)) }
{
    match Name::from_ascii(isolate.alloc(), "java/lang/Throwable") {
        Ok(name) => thrown_object(isolate, stack, &name),
        Err(_) => Stop::OutOfMemory,
    }
}
