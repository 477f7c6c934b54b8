//! New arrays of one dimension (JVM Specification 6.5: newarray, anewarray).

ghost use Rattle.std.specs.Prelude.{◌≡◌, ◌≢◌, Err, IfErr, IsSome, OnErr, Result};
ghost use Rattle.mvm_base.specs.Answers.{AnswersUnless, Gives};
ghost use Rattle.mvm_isolate.specs.Members.{or_verify};
ghost use Rattle.mvm_isolate.specs.Numbered.{look_of, named, shape_at, IsArray, Numbered};
ghost use Rattle.mvm_isolate.specs.Sound.{Grows};
ghost use Rattle.mvm_isolate.specs.Types.{ReferenceType};
ghost use Rattle.mvm_isolate.specs.declared.stop.Stop.{Stop as StopOf};
ghost use Rattle.mvm_isolate.specs.declared.stop.Stop.TheVariants.{OutOfMemory};
ghost use Rattle.mvm_current.specs.Found.{HasType};
ghost use Rattle.mvm_current.specs.Keys.{top_named, AreKeys, RunsMethod};
ghost use Rattle.mvm_object.specs.Arrays.{array_made, array_of_type, base_of_code, count_of, make_numbers, make_references, popped_count};
ghost use Rattle.mvm_object.specs.Coming.{point_of, GoesOn};
ghost use Rattle.mvm_object.specs.Going.{Context};

use crate::going::pushing;
use mvm_base::{Base, FieldShape, Kind, Steps, Word};
use mvm_current::{TypeEntry, may_push, name_of, pop_int, type_entry};
use mvm_frame::Stack;
use mvm_isolate::{Isolate, Stop};
use mvm_mirror::copy_shape;
use mvm_native::Thrown;
use mvm_table::Table;
use std::sync::ledger::Ledger;

/// A length of an array.
pub(crate) fn count_of(count: i32) -> Result<u32, Stop>
    ensures is { result ≡ count_of count }
    ensures memory { IfErr result (λ stop. stop ≢ Stop.OutOfMemory) }
{
    if count >= 0 {
        Ok(count as u32)
    } else {
        Err(Stop::Throw(Thrown::NegativeArraySizeException))
    }
}

/// The length of an array, which is popped.
fn popped_count(stack: &mut Stack) -> Result<u32, Stop>
    requires { IsSome stack.old.rest.below.key }
    ensures does { (n : Numbered) → Gives result (popped_count (top_named n stack.old)) (top_named n stack.new) }
    ensures rest { stack.new.rest ≡ stack.old.rest }
    ensures depth { stack.new.operands.depth ≡ stack.old.operands.depth }
    ensures memory { IfErr result (λ stop. stop ≢ Stop.OutOfMemory) }
{
    let length = pop_int(stack)?;
    count_of(length)
}

/// A new array of the array class of a number stands on the operands in the place of its length. It takes no memory of the machine's own.
#[tactic(auto, unfolding(crate::specs::Arrays::array_made, mvm_current::specs::Keys::callers_named), using(mvm_current::proofs::Growth::top_grows, mvm_current::proofs::Growth::callers_grow, crate::proofs::Allotting::array_not_memory))]
fn array_made(isolate: &mut Isolate, stack: &mut Stack, row: u32, next: u32) -> Result<(), Stop>
    requires frame { IsSome stack.old.rest.below.key }
    requires method { RunsMethod stack.old }
    requires keys { AreKeys isolate.old stack.old }
    requires row { IsArray isolate.old row }
    ensures does { (c : Context) → GoesOn result (array_made c (shape_at isolate.old row) next (point_of isolate.old stack.old)) isolate.new stack.new c.object }
    ensures below { stack.new.rest.below ≡ stack.old.rest.below }
    ensures rest { OnErr result (stack.new.rest ≡ stack.old.rest) }
    ensures depth { OnErr result (stack.new.operands.depth ≡ stack.old.operands.depth) }
    // Where memory ran out the stack is as before.
    ensures memory { result ≡ Err OutOfMemory → stack.new ≡ stack.old }
    ensures err { OnErr result (named isolate.new ≡ named isolate.old) }
    ensures links { isolate.new.env.links ≡ isolate.old.env.links }
    ensures grows { Grows isolate.old isolate.new }
{
    let count = popped_count(stack)?;
    may_push(stack, Kind::Ref)?;
    let object = isolate.new_array(row, count)?;
    pushing(stack, Word::Ref(object), next)
}

/// The same of the array class of a shape. What may take memory comes before the length is popped.
#[tactic(auto, using(mvm_current::proofs::Growth::top_grows, mvm_current::proofs::Growth::callers_grow, mvm_current::proofs::Growth::keys_grow, mvm_isolate::proofs::Keeping::grows_then))]
fn make_array(
    isolate: &mut Isolate,
    stack: &mut Stack,
    shape: &FieldShape,
    next: u32,
) -> Result<(), Stop>
    requires frame { IsSome stack.old.rest.below.key }
    requires method { RunsMethod stack.old }
    requires keys { AreKeys isolate.old stack.old }
    ensures does { (c : Context) → GoesOn result (array_made c shape.now next (point_of isolate.old stack.old)) isolate.new stack.new c.object }
    ensures below { stack.new.rest.below ≡ stack.old.rest.below }
    ensures rest { OnErr result (stack.new.rest ≡ stack.old.rest) }
    ensures depth { OnErr result (stack.new.operands.depth ≡ stack.old.operands.depth) }
    // Where memory ran out the stack is as before.
    ensures memory { result ≡ Err OutOfMemory → stack.new ≡ stack.old }
    ensures err { OnErr result (named isolate.new ≡ named isolate.old) }
    ensures links { isolate.new.env.links ≡ isolate.old.env.links }
    ensures grows { Grows isolate.old isolate.new }
{
    let row = isolate.array_class(shape)?;
    array_made(isolate, stack, row, next)
}

/// The codes of `newarray` (JVM Specification, table 6.5.newarray-A).
fn base_of_code(code: u8) -> Result<Base, Stop>
    ensures is { result ≡ or_verify (base_of_code code) }
    ensures memory { IfErr result (λ stop. stop ≢ Stop.OutOfMemory) }
{
    match code {
        4 => Ok(Base::Boolean),
        5 => Ok(Base::Char),
        8 => Ok(Base::Byte),
        9 => Ok(Base::Short),
        10 => Ok(Base::Int),
        11 => Ok(Base::Long),
        _ => Err(Stop::Throw(Thrown::VerifyError)),
    }
}

/// `newarray`.
///
/// # Errors
///
/// A `NegativeArraySizeException`, an `OutOfMemoryError`, or a `VerifyError` for what linked code has not.
#[tactic(auto, unfolding(crate::specs::Arrays::make_numbers))]
pub fn make_numbers(
    isolate: &mut Isolate,
    stack: &mut Stack,
    code: u8,
    next: u32,
) -> Result<(), Stop>
    requires frame { IsSome stack.old.rest.below.key }
    requires method { RunsMethod stack.old }
    requires keys { AreKeys isolate.old stack.old }
    ensures does { (c : Context) → GoesOn result (make_numbers c code next (point_of isolate.old stack.old)) isolate.new stack.new c.object }
    ensures below { stack.new.rest.below ≡ stack.old.rest.below }
    ensures rest { OnErr result (stack.new.rest ≡ stack.old.rest) }
    ensures depth { OnErr result (stack.new.operands.depth ≡ stack.old.operands.depth) }
    // Where memory ran out the stack is as before.
    ensures memory { result ≡ Err OutOfMemory → stack.new ≡ stack.old }
    ensures err { OnErr result (named isolate.new ≡ named isolate.old) }
    ensures links { isolate.new.env.links ≡ isolate.old.env.links }
    ensures grows { Grows isolate.old isolate.new }
{
    let base = base_of_code(code)?;
    make_array(isolate, stack, &FieldShape { dims: 1, base }, next)
}

/// An array of which each item is of this type.
fn array_of(entry: &TypeEntry) -> Result<FieldShape, Stop>
    ensures { (definition : Result ReferenceType StopOf) → HasType entry.now definition → AnswersUnless Stop.OutOfMemory result (array_of_type definition) }
{
    match entry {
        TypeEntry::Class(class) => {
            let name = name_of(class.get())?;
            Ok(FieldShape {
                dims: 1,
                base: Base::Object(name.copy()?),
            })
        }
        TypeEntry::Array(shape) => {
            if shape.dims < 255 {
                let item = copy_shape(shape)?;
                Ok(FieldShape {
                    dims: item.dims + 1,
                    base: item.base,
                })
            } else {
                Err(Stop::Throw(Thrown::VerifyError))
            }
        }
    }
}

/// `anewarray`.
///
/// # Errors
///
/// What is thrown for the first fault of the resolution, a `NegativeArraySizeException`, an `OutOfMemoryError`, or a `VerifyError` for what linked
/// code has not.
#[tactic(auto, unfolding(crate::specs::Arrays::make_references))]
pub fn make_references<L: Ledger>(
    isolate: &mut Isolate,
    table: &Table,
    stack: &mut Stack,
    index: u16,
    next: u32,
    steps: &mut Steps<L>,
) -> Result<(), Stop>
    requires files { table.now.files ≡ isolate.old.files }
    requires frame { IsSome stack.old.rest.below.key }
    requires method { RunsMethod stack.old }
    requires keys { AreKeys isolate.old stack.old }
    ensures does { (c : Context) → c.look ≡ look_of isolate.old → GoesOn result (make_references c index next (point_of isolate.old stack.old)) isolate.new stack.new c.object }
    ensures below { stack.new.rest.below ≡ stack.old.rest.below }
    ensures rest { OnErr result (stack.new.rest ≡ stack.old.rest) }
    ensures depth { OnErr result (stack.new.operands.depth ≡ stack.old.operands.depth) }
    // Where memory ran out the stack is as before.
    ensures memory { result ≡ Err OutOfMemory → stack.new ≡ stack.old }
    ensures err { OnErr result (named isolate.new ≡ named isolate.old) }
    ensures links { isolate.new.env.links ≡ isolate.old.env.links }
    ensures grows { Grows isolate.old isolate.new }
{
    let entry = type_entry(isolate, table, stack, index, steps)?;
    let shape = array_of(&entry)?;
    make_array(isolate, stack, &shape, next)
}
