//! Tests of types (JVM Specification 6.5: checkcast, instanceof), by what is kept of their entries.

ghost use Rattle.std.specs.Prelude.{◌≡◌, Ok, Err, IsSome, IfSome, OnErr, Result};
ghost use Rattle.mvm_base.specs.Answers.{AnswersUnless};
ghost use Rattle.mvm_isolate.specs.Numbered.{look_of, named, IsClass};
ghost use Rattle.mvm_isolate.specs.Types.{ReferenceType};
ghost use Rattle.mvm_isolate.specs.declared.stop.Stop.{Stop as StopOf};
ghost use Rattle.mvm_isolate.specs.declared.stop.Stop.TheVariants.{OutOfMemory};
ghost use Rattle.mvm_current.specs.Entries.{type_entry};
ghost use Rattle.mvm_current.specs.Found.{HasType};
ghost use Rattle.mvm_current.specs.Keys.{top_named, AreKeys, RunsMethod};
ghost use Rattle.mvm_object.specs.Coming.{point_of, GoesOn};
ghost use Rattle.mvm_object.specs.Going.{Context};
ghost use Rattle.mvm_object.specs.Objects.{check_cast, instance_of, is_of_entry};
ghost use Rattle.mvm_kept.specs.Kept.{AreKept, HasTest};

use crate::entry::{Asked, Entry, Meaning, TestAt};
use crate::fields::are_of;
use crate::kept::Kept;
use mvm_base::{Steps, Word};
use mvm_current::{TypeEntry, type_entry};
use mvm_frame::Stack;
use mvm_isolate::{Isolate, Stop, TypeAt};
use mvm_native::Thrown;
use mvm_object::{answers, is_of_entry, passes, top_reference};
use mvm_set::own_name;
use mvm_table::Table;
use std::sync::ledger::Ledger;

/// The type that the entry of an index of the constant pool of the current frame's class names, if that is kept.
#[tactic(auto, using(crate::proofs::Growing::type_found))]
fn test_found(isolate: &Isolate, kept: &Kept, stack: &Stack, index: u16) -> Option<TestAt>
    requires frame { IsSome stack.now.rest.below.key }
    requires method { RunsMethod stack.now }
    requires keys { AreKeys isolate.now stack.now }
    requires kept { AreKept isolate.now kept.now }
    ensures { IfSome result (λ at. HasTest isolate.now at (type_entry (look_of isolate.now) index (top_named isolate.now stack.now))) }
{
    match stack.top() {
        Some(key) => match kept.get(key.mirror, index, Asked::Test) {
            Some(Meaning::Test(at)) => Some(*at),
            _ => None,
        },
        None => unreachable!(),
    }
}

/// Whether an object is an instance of a type that is kept, where it is of the class of which that is known.
#[tactic(auto, unfolding(mvm_object::specs::Objects::is_of_entry, mvm_isolate::specs::Instances::is_instance, mvm_isolate::specs::Numbered::type_of))]
fn tested(isolate: &Isolate, stack: &Stack, at: TestAt, index: u16, object: u32) -> Option<bool>
    requires { HasTest isolate.now at (type_entry (look_of isolate.now) index (top_named isolate.now stack.now)) }
    ensures { IfSome result (λ is. is_of_entry (look_of isolate.now) index (top_named isolate.now stack.now) object (named isolate.now) ≡ Ok is) }
{
    match isolate.type_at(object) {
        Some(TypeAt::Class(mirror)) => {
            if mirror == at.receiver {
                Some(at.is)
            } else {
                None
            }
        }
        _ => None,
    }
}

/// Whether objects of the class of a number are instances of the type of an entry.
#[tactic(auto, unfolding(mvm_isolate::specs::Types::suits))]
fn test_at(isolate: &Isolate, entry: &TypeEntry, receiver: u32) -> Option<TestAt>
    requires { IsClass isolate.now receiver }
    ensures { (definition : Result ReferenceType StopOf) → HasType entry.now definition → IfSome result (λ at. HasTest isolate.now at definition) }
{
    match entry {
        TypeEntry::Class(class) => match own_name(class.get().file()) {
            Some(name) => Some(TestAt {
                receiver,
                is: are_of(isolate, receiver, name),
            }),
            None => None,
        },
        TypeEntry::Array(_) => Some(TestAt {
            receiver,
            is: false,
        }),
    }
}

/// The same of the entry of an index, and of the class of an object.
fn test_of<L: Ledger>(
    isolate: &Isolate,
    table: &Table,
    stack: &Stack,
    index: u16,
    object: u32,
    steps: &mut Steps<L>,
) -> Option<TestAt>
    requires files { table.now.files ≡ isolate.now.files }
    requires frame { IsSome stack.now.rest.below.key }
    requires keys { AreKeys isolate.now stack.now }
    ensures { IfSome result (λ at. HasTest isolate.now at (type_entry (look_of isolate.now) index (top_named isolate.now stack.now))) }
{
    match isolate.type_at(object) {
        Some(TypeAt::Class(receiver)) => {
            match type_entry(isolate, table, stack, index, steps) {
                Ok(entry) => test_at(isolate, &entry, receiver),
                Err(_) => None,
            }
        }
        _ => None,
    }
}

/// Keeps a type that the entry of an index of the constant pool of the current frame's class names.
fn keep_test(isolate: &Isolate, kept: &mut Kept, stack: &Stack, at: TestAt, index: u16)
    requires frame { IsSome stack.now.rest.below.key }
    requires method { RunsMethod stack.now }
    requires keys { AreKeys isolate.now stack.now }
    requires kept { AreKept isolate.now kept.old }
    requires at { HasTest isolate.now at (type_entry (look_of isolate.now) index (top_named isolate.now stack.now)) }
    ensures { AreKept isolate.now kept.new }
{
    if let Some(key) = stack.top() {
        kept.keep(Entry {
            home: key.mirror,
            index,
            meaning: Meaning::Test(at),
        });
    }
}

/// Whether an object is an instance of the type of an entry, where that is kept of its class.
fn known(isolate: &Isolate, kept: &Kept, stack: &Stack, index: u16, object: u32) -> Option<bool>
    requires frame { IsSome stack.now.rest.below.key }
    requires method { RunsMethod stack.now }
    requires keys { AreKeys isolate.now stack.now }
    requires kept { AreKept isolate.now kept.now }
    ensures { IfSome result (λ is. is_of_entry (look_of isolate.now) index (top_named isolate.now stack.now) object (named isolate.now) ≡ Ok is) }
{
    match test_found(isolate, kept, stack, index) {
        Some(at) => tested(isolate, stack, at, index, object),
        None => None,
    }
}

/// The same by names: from now on it is kept of the class of the object, in the place of what was kept of another.
fn known_anew<L: Ledger>(
    isolate: &Isolate,
    table: &Table,
    kept: &mut Kept,
    stack: &Stack,
    index: u16,
    object: u32,
    steps: &mut Steps<L>,
) -> Option<bool>
    requires files { table.now.files ≡ isolate.now.files }
    requires frame { IsSome stack.now.rest.below.key }
    requires method { RunsMethod stack.now }
    requires keys { AreKeys isolate.now stack.now }
    requires kept { AreKept isolate.now kept.old }
    ensures is { IfSome result (λ is. is_of_entry (look_of isolate.now) index (top_named isolate.now stack.now) object (named isolate.now) ≡ Ok is) }
    ensures kept { AreKept isolate.now kept.new }
{
    match test_of(isolate, table, stack, index, object, steps) {
        Some(at) => {
            keep_test(isolate, kept, stack, at, index);
            tested(isolate, stack, at, index, object)
        }
        None => None,
    }
}

/// Whether an object is an instance of the type of an entry, by what is kept if anything is.
fn is_of<L: Ledger>(
    isolate: &Isolate,
    table: &Table,
    kept: &mut Kept,
    stack: &Stack,
    index: u16,
    object: u32,
    steps: &mut Steps<L>,
) -> Result<bool, Stop>
    requires files { table.now.files ≡ isolate.now.files }
    requires frame { IsSome stack.now.rest.below.key }
    requires method { RunsMethod stack.now }
    requires keys { AreKeys isolate.now stack.now }
    requires kept { AreKept isolate.now kept.old }
    ensures answer { AnswersUnless Stop.OutOfMemory result (is_of_entry (look_of isolate.now) index (top_named isolate.now stack.now) object (named isolate.now)) }
    ensures kept { AreKept isolate.now kept.new }
{
    if let Some(is) = known(isolate, kept, stack, index, object) {
        return Ok(is);
    }
    if let Some(is) = known_anew(isolate, table, kept, stack, index, object, steps) {
        return Ok(is);
    }
    is_of_entry(isolate, table, stack, index, object, steps)
}

/// `checkcast`: null passes, and its type is not looked at. What may take memory comes before the reference is popped.
///
/// # Errors
///
/// What is thrown for the first fault of the resolution, a `ClassCastException`, or a `VerifyError` for what linked code has not.
#[tactic(auto, unfolding(mvm_object::specs::Objects::check_cast))]
pub fn check_cast<L: Ledger>(
    isolate: &Isolate,
    table: &Table,
    kept: &mut Kept,
    stack: &mut Stack,
    index: u16,
    next: u32,
    steps: &mut Steps<L>,
) -> Result<(), Stop>
    requires files { table.now.files ≡ isolate.now.files }
    requires frame { IsSome stack.old.rest.below.key }
    requires method { RunsMethod stack.old }
    requires keys { AreKeys isolate.now stack.old }
    requires kept { AreKept isolate.now kept.old }
    ensures does { (c : Context) → c.look ≡ look_of isolate.now → GoesOn result (check_cast c index next (point_of isolate.now stack.old)) isolate.now stack.new c.object }
    ensures below { stack.new.rest.below ≡ stack.old.rest.below }
    ensures rest { OnErr result (stack.new.rest ≡ stack.old.rest) }
    ensures depth { OnErr result (stack.new.operands.depth ≡ stack.old.operands.depth) }
    ensures kept { AreKept isolate.now kept.new }
    // Where memory ran out the stack is as before.
    ensures memory { result ≡ Err OutOfMemory → stack.new ≡ stack.old }
{
    match top_reference(stack)? {
        Word::Ref(object) => {
            if is_of(isolate, table, kept, stack, index, object, steps)? {
                passes(stack, next)
            } else {
                Err(Stop::Throw(Thrown::ClassCastException))
            }
        }
        Word::Null => passes(stack, next),
        Word::Int(_) | Word::Long(_) => Err(Stop::Throw(Thrown::VerifyError)),
    }
}

/// `instanceof`: null is an instance of nothing. What may take memory comes before the reference is popped.
///
/// # Errors
///
/// What is thrown for the first fault of the resolution, or a `VerifyError` for what linked code has not.
#[tactic(auto, unfolding(mvm_object::specs::Objects::instance_of))]
pub fn instance_of<L: Ledger>(
    isolate: &Isolate,
    table: &Table,
    kept: &mut Kept,
    stack: &mut Stack,
    index: u16,
    next: u32,
    steps: &mut Steps<L>,
) -> Result<(), Stop>
    requires files { table.now.files ≡ isolate.now.files }
    requires frame { IsSome stack.old.rest.below.key }
    requires method { RunsMethod stack.old }
    requires keys { AreKeys isolate.now stack.old }
    requires kept { AreKept isolate.now kept.old }
    ensures does { (c : Context) → c.look ≡ look_of isolate.now → GoesOn result (instance_of c index next (point_of isolate.now stack.old)) isolate.now stack.new c.object }
    ensures below { stack.new.rest.below ≡ stack.old.rest.below }
    ensures rest { OnErr result (stack.new.rest ≡ stack.old.rest) }
    ensures depth { OnErr result (stack.new.operands.depth ≡ stack.old.operands.depth) }
    ensures kept { AreKept isolate.now kept.new }
    // Where memory ran out the stack is as before.
    ensures memory { result ≡ Err OutOfMemory → stack.new ≡ stack.old }
{
    match top_reference(stack)? {
        Word::Ref(object) => {
            let is = is_of(isolate, table, kept, stack, index, object, steps)?;
            answers(stack, is, next)
        }
        Word::Null => answers(stack, false, next),
        Word::Int(_) | Word::Long(_) => Err(Stop::Throw(Thrown::VerifyError)),
    }
}
