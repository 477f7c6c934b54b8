//! New arrays of arrays (JVM Specification 6.5: multianewarray).

ghost use Rattle.std.specs.Prelude.{◌≡◌, ◌≢◌, ◌<◌, ◌≤◌, length, IfErr, IfOk, IsSome, OnErr, OnOk, Result};
ghost use Rattle.mvm_base.specs.Answers.{AnswersUnless};
ghost use Rattle.mvm_select.specs.Names.{on_ok};
ghost use Rattle.mvm_isolate.specs.Numbered.{look_of, named, Numbered};
ghost use Rattle.mvm_isolate.specs.Sound.{Grows};
ghost use Rattle.mvm_isolate.specs.Types.{ReferenceType};
ghost use Rattle.mvm_isolate.specs.declared.stop.Stop.{Stop as StopOf};
ghost use Rattle.mvm_current.specs.Found.{HasType};
ghost use Rattle.mvm_current.specs.Keys.{top_named, AreKeys, RunsMethod};
ghost use Rattle.mvm_current.specs.Values.{int_of};
ghost use Rattle.mvm_object.specs.Arrays.{arrays_pushed, counts_of, lengths, make_arrays, shape_of_type};
ghost use Rattle.mvm_object.specs.Coming.{point_of, GoesOn};
ghost use Rattle.mvm_object.specs.Going.{Context};

use crate::going::pushing;
use crate::making::count_of;
use mvm_base::{FieldShape, Kind, List, Steps, Word};
use mvm_current::{TypeEntry, arguments, type_entry};
use mvm_frame::Stack;
use mvm_initialise::new_arrays;
use mvm_isolate::{Isolate, Stop};
use mvm_native::Thrown;
use mvm_table::Table;
use std::alloc::Global;
use std::sync::ledger::Ledger;

/// The shape of an array of at least so many dimensions, of which there is one.
fn shape_in(entry: &TypeEntry, dims: u8) -> Result<&FieldShape, Stop>
    ensures is { (definition : Result ReferenceType StopOf) → HasType entry.now definition → on_ok (λ shape. shape.now) result ≡ shape_of_type dims definition }
    ensures some { OnOk result (0 < dims) }
{
    match entry {
        TypeEntry::Array(shape) => {
            if 0 < dims && dims <= shape.dims {
                Ok(shape)
            } else {
                Err(Stop::Throw(Thrown::VerifyError))
            }
        }
        TypeEntry::Class(_) => Err(Stop::Throw(Thrown::VerifyError)),
    }
}

fn int_of(word: Word) -> Result<i32, Stop>
    ensures is { result ≡ int_of word }
    ensures memory { IfErr result (λ stop. stop ≢ Stop.OutOfMemory) }
{
    match word {
        Word::Int(value) => Ok(value),
        Word::Long(_) | Word::Ref(_) | Word::Null => Err(Stop::Throw(Thrown::VerifyError)),
    }
}

/// The lengths that these values are.
fn counts_of(alloc: Global, words: &[Word]) -> Result<List<u32>, Stop>
    ensures { AnswersUnless Stop.OutOfMemory result (counts_of words.now) }
{
    let mut counts = List::new(alloc);
    for i in 0..words.len() {
        let length = int_of(words[i])?;
        counts.push(count_of(length)?)?;
    }
    Ok(counts)
}

/// The lengths of so many dimensions, the last of them on top of the operands. They stay there.
#[tactic(auto, unfolding(crate::specs::Arrays::lengths))]
fn lengths(alloc: Global, stack: &Stack, dims: u8) -> Result<List<u32>, Stop>
    ensures answer { (n : Numbered) → AnswersUnless Stop.OutOfMemory result (lengths dims (top_named n stack.now)) }
    ensures there { OnOk result (dims ≤ length stack.now.operands.slots) }
    ensures many { IfOk result (λ counts. length counts ≡ dims) }
{
    let kinds = vec![in alloc; Kind::Int; usize::from(dims)]?;
    let words = arguments(alloc, stack, kinds.as_slice())?;
    counts_of(alloc, words.as_slice())
}

/// New arrays stand on the operands in the place of their lengths.
#[tactic(auto, unfolding(crate::specs::Arrays::arrays_pushed, mvm_current::specs::Keys::callers_named), using(mvm_current::proofs::Growth::top_grows, mvm_current::proofs::Growth::callers_grow))]
fn arrays_pushed(
    isolate: &mut Isolate,
    stack: &mut Stack,
    shape: &FieldShape,
    counts: &[u32],
    next: u32,
) -> Result<(), Stop>
    requires frame { IsSome stack.old.rest.below.key }
    requires method { RunsMethod stack.old }
    requires keys { AreKeys isolate.old stack.old }
    requires some { 0 < length counts.now }
    requires there { length counts.now ≤ length stack.old.operands.slots }
    ensures does { (c : Context) → GoesOn result (arrays_pushed c shape.now counts.now next (point_of isolate.old stack.old)) isolate.new stack.new c.object }
    ensures below { stack.new.rest.below ≡ stack.old.rest.below }
    ensures stack { OnErr result (stack.new ≡ stack.old) }
    ensures err { OnErr result (named isolate.new ≡ named isolate.old) }
    ensures links { isolate.new.env.links ≡ isolate.old.env.links }
    ensures grows { Grows isolate.old isolate.new }
{
    // The operands are within their depth.
    let _room = stack.room();
    let array = new_arrays(isolate, shape, counts)?;
    stack.drop_slots(counts.len());
    match pushing(stack, Word::Ref(array), next) {
        Ok(()) => Ok(()),
        Err(_) => unreachable!(),
    }
}

/// `multianewarray`.
///
/// # Errors
///
/// What is thrown for the first fault of the resolution, a `NegativeArraySizeException`, an `OutOfMemoryError`, or a `VerifyError` for what linked
/// code has not.
#[tactic(auto, unfolding(crate::specs::Arrays::make_arrays))]
pub fn make_arrays<L: Ledger>(
    isolate: &mut Isolate,
    table: &Table,
    stack: &mut Stack,
    index: u16,
    dims: u8,
    next: u32,
    steps: &mut Steps<L>,
) -> Result<(), Stop>
    requires files { table.now.files ≡ isolate.old.files }
    requires frame { IsSome stack.old.rest.below.key }
    requires method { RunsMethod stack.old }
    requires keys { AreKeys isolate.old stack.old }
    ensures does { (c : Context) → c.look ≡ look_of isolate.old → GoesOn result (make_arrays c index dims next (point_of isolate.old stack.old)) isolate.new stack.new c.object }
    ensures below { stack.new.rest.below ≡ stack.old.rest.below }
    ensures stack { OnErr result (stack.new ≡ stack.old) }
    ensures err { OnErr result (named isolate.new ≡ named isolate.old) }
    ensures links { isolate.new.env.links ≡ isolate.old.env.links }
    ensures grows { Grows isolate.old isolate.new }
{
    let entry = type_entry(isolate, table, stack, index, steps)?;
    let shape = shape_in(&entry, dims)?;
    let counts = lengths(isolate.alloc(), stack, dims)?;
    arrays_pushed(isolate, stack, shape, counts.as_slice(), next)
}
