//! Constants (JVM Specification 6.5: ldc, ldc_w, ldc2_w).

ghost use Rattle.std.specs.Prelude.{◌≡◌, Err, IfOk, IsSome, OnErr};
ghost use Rattle.mvm_base.specs.Answers.{GivesUnless};
ghost use Rattle.mvm_isolate.specs.Initialise.{as_reference};
ghost use Rattle.mvm_isolate.specs.Isolate.{class_object, interned_text};
ghost use Rattle.mvm_isolate.specs.Numbered.{look_of, named};
ghost use Rattle.mvm_isolate.specs.Sound.{Grows};
ghost use Rattle.mvm_isolate.specs.Types.{of_array};
ghost use Rattle.mvm_isolate.specs.declared.stop.Stop.{Stop as StopOf};
ghost use Rattle.mvm_current.specs.Keys.{top_named, AreKeys, RunsMethod};
ghost use Rattle.mvm_current.specs.Values.{kind_of, may_push};
ghost use Rattle.mvm_object.specs.Coming.{point_of, GoesOn};
ghost use Rattle.mvm_object.specs.Fields.{class_constant, constant_pushed, load_constant, loaded_constant};
ghost use Rattle.mvm_object.specs.Going.{Context};

use crate::going::pushing;
use mvm_base::{FieldShape, Kind, Name, Steps, Word};
use mvm_current::{entry_at, may_push, name_of};
use mvm_frame::Stack;
use mvm_isolate::{Isolate, Stop};
use mvm_native::Thrown;
use mvm_set::Class;
use mvm_table::{Resolved, Table};
use std::sync::ledger::Ledger;

/// The most units that a text may have.
const MOST_UNITS: usize = 4_294_967_295;

/// The interned text of these units.
fn text_constant(isolate: &mut Isolate, text: &Name) -> Result<Word, Stop>
    ensures does { GivesUnless Stop.OutOfMemory result (as_reference (interned_text text.now (named isolate.old))) (named isolate.new) }
    ensures err { OnErr result (named isolate.new ≡ named isolate.old) }
    ensures links { isolate.new.env.links ≡ isolate.old.env.links }
    ensures grows { Grows isolate.old isolate.new }
{
    if text.units().len() > MOST_UNITS {
        return Err(Stop::OutOfMemory);
    }
    match isolate.interned_text(text.units()) {
        Ok(object) => Ok(Word::Ref(object)),
        Err(stop) => Err(stop),
    }
}

/// The class object of a class.
#[tactic(auto, unfolding(crate::specs::Fields::class_constant), using(mvm_isolate::proofs::Keeping::grows_then))]
fn class_constant<L: Ledger>(
    isolate: &mut Isolate,
    table: &Table,
    class: &Class,
    steps: &mut Steps<L>,
) -> Result<Word, Stop>
    requires files { table.now.files ≡ isolate.old.files }
    ensures does { GivesUnless Stop.OutOfMemory result (class_constant (look_of isolate.old) class.now (named isolate.old)) (named isolate.new) }
    ensures err { OnErr result (named isolate.new ≡ named isolate.old) }
    ensures links { isolate.new.env.links ≡ isolate.old.env.links }
    ensures grows { Grows isolate.old isolate.new }
{
    let name = name_of(class)?;
    let mirror = isolate.load(table, name, steps)?;
    let _class = isolate.class(mirror);
    match isolate.class_object(mirror) {
        Ok(object) => Ok(Word::Ref(object)),
        Err(stop) => Err(stop),
    }
}

/// The class object of the array class of a shape.
#[tactic(auto, using(mvm_isolate::proofs::Keeping::grows_then))]
fn array_constant(isolate: &mut Isolate, shape: &FieldShape) -> Result<Word, Stop>
    ensures does { GivesUnless Stop.OutOfMemory result (as_reference (class_object (of_array shape.now) (named isolate.old))) (named isolate.new) }
    ensures err { OnErr result (named isolate.new ≡ named isolate.old) }
    ensures links { isolate.new.env.links ≡ isolate.old.env.links }
    ensures grows { Grows isolate.old isolate.new }
{
    let row = isolate.array_class(shape)?;
    match isolate.array_class_object(row) {
        Ok(object) => Ok(Word::Ref(object)),
        Err(stop) => Err(stop),
    }
}

/// What an entry stands for as a value.
#[tactic(auto, unfolding(crate::specs::Fields::loaded_constant), using(mvm_isolate::proofs::Keeping::grows_same))]
fn loaded_constant<L: Ledger>(
    isolate: &mut Isolate,
    table: &Table,
    stack: &Stack,
    found: &Resolved,
    steps: &mut Steps<L>,
) -> Result<Word, Stop>
    requires files { table.now.files ≡ isolate.old.files }
    ensures does { GivesUnless Stop.OutOfMemory result (loaded_constant (look_of isolate.old) (top_named isolate.old stack.now) (named isolate.old) found.now) (named isolate.new) }
    ensures err { OnErr result (named isolate.new ≡ named isolate.old) }
    // Where the value does not fit on the operands nothing has changed by names.
    ensures kept { IfOk result (λ word. (stop : StopOf) → may_push (kind_of word) (top_named isolate.old stack.now) ≡ Err stop → named isolate.new ≡ named isolate.old) }
    ensures links { isolate.new.env.links ≡ isolate.old.env.links }
    ensures grows { Grows isolate.old isolate.new }
{
    match found {
        Resolved::Int(value) => Ok(Word::Int(*value)),
        Resolved::Long(value) => Ok(Word::Long(*value)),
        Resolved::Text(text) => {
            may_push(stack, Kind::Ref)?;
            text_constant(isolate, text)
        }
        Resolved::Class(class) => {
            may_push(stack, Kind::Ref)?;
            class_constant(isolate, table, class.get(), steps)
        }
        Resolved::Array(shape) => {
            may_push(stack, Kind::Ref)?;
            array_constant(isolate, shape)
        }
        Resolved::Field(_) | Resolved::Method(_) | Resolved::Other => {
            Err(Stop::Throw(Thrown::VerifyError))
        }
    }
}

/// What an entry stands for as a value is pushed. What may take memory comes before the stack changes.
fn constant_pushed<L: Ledger>(
    isolate: &mut Isolate,
    table: &Table,
    stack: &mut Stack,
    found: &Resolved,
    next: u32,
    steps: &mut Steps<L>,
) -> Result<(), Stop>
    requires files { table.now.files ≡ isolate.old.files }
    requires frame { IsSome stack.old.rest.below.key }
    requires method { RunsMethod stack.old }
    requires keys { AreKeys isolate.old stack.old }
    ensures does { (c : Context) → c.look ≡ look_of isolate.old → GoesOn result (constant_pushed c next found.now (point_of isolate.old stack.old)) isolate.new stack.new c.object }
    ensures below { stack.new.rest.below ≡ stack.old.rest.below }
    ensures stack { OnErr result (stack.new ≡ stack.old) }
    ensures err { OnErr result (named isolate.new ≡ named isolate.old) }
    ensures links { isolate.new.env.links ≡ isolate.old.env.links }
    ensures grows { Grows isolate.old isolate.new }
{
    let word = loaded_constant(isolate, table, stack, found, steps)?;
    pushing(stack, word, next)
}

/// `ldc`, `ldc_w` and `ldc2_w`: an int, a long, an interned text, a class object.
///
/// # Errors
///
/// What is thrown for the first fault of the resolution, an `OutOfMemoryError`, or a `VerifyError` for what linked code has not.
#[tactic(auto, unfolding(crate::specs::Fields::load_constant), using(mvm_isolate::proofs::Keeping::grows_same))]
pub fn load_constant<L: Ledger>(
    isolate: &mut Isolate,
    table: &Table,
    stack: &mut Stack,
    index: u16,
    next: u32,
    steps: &mut Steps<L>,
) -> Result<(), Stop>
    requires files { table.now.files ≡ isolate.old.files }
    requires frame { IsSome stack.old.rest.below.key }
    requires method { RunsMethod stack.old }
    requires keys { AreKeys isolate.old stack.old }
    ensures does { (c : Context) → c.look ≡ look_of isolate.old → GoesOn result (load_constant c index next (point_of isolate.old stack.old)) isolate.new stack.new c.object }
    ensures below { stack.new.rest.below ≡ stack.old.rest.below }
    ensures stack { OnErr result (stack.new ≡ stack.old) }
    ensures err { OnErr result (named isolate.new ≡ named isolate.old) }
    ensures links { isolate.new.env.links ≡ isolate.old.env.links }
    ensures grows { Grows isolate.old isolate.new }
{
    let found = entry_at(isolate, table, stack, index, steps)?;
    constant_pushed(isolate, table, stack, &found, next, steps)
}
