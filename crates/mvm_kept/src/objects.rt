//! New objects (JVM Specification 6.5: new), by what is kept of their classes.

ghost use Rattle.std.specs.Prelude.{◌≡◌, true, Ok, IsSome, IfOk, IfSome, OnErr, Result};
ghost use Rattle.mvm_isolate.specs.Numbered.{look_of, name_at, named, IsClass};
ghost use Rattle.mvm_isolate.specs.Sound.{Grows};
ghost use Rattle.mvm_isolate.specs.declared.stop.Stop.{Stop as StopOf};
ghost use Rattle.mvm_current.specs.Keys.{top_named, AreKeys, IsStackOf, RunsMethod};
ghost use Rattle.mvm_mirror.specs.States.{begun};
ghost use Rattle.mvm_object.specs.Coming.{point_of, Comes, IsFor, IsState};
ghost use Rattle.mvm_object.specs.Entries.{once_initialised};
ghost use Rattle.mvm_object.specs.Going.{Context};
ghost use Rattle.mvm_object.specs.Objects.{make_object, object_pushed};
ghost use Rattle.mvm_set.specs.declared.class.Lineage.{Lineage};
ghost use Rattle.mvm_kept.specs.Kept.{class_entry, AreKept, HasObjects};

use crate::entry::{Asked, Entry, Meaning, ObjectsAt};
use crate::initialised::goes;
use crate::kept::Kept;
use mvm_base::Steps;
use mvm_current::entry_at;
use mvm_frame::Stack;
use mvm_isolate::{Isolate, Stop};
use mvm_member::field_count;
use mvm_mirror::Begin;
use mvm_object::{ThreadState, class_of_objects, object_pushed};
use mvm_set::{Class, own_name};
use mvm_table::Table;
use std::sync::ledger::Ledger;

/// The class with objects that the entry of an index of the constant pool of the current frame's class names, if that is kept.
#[tactic(auto, using(crate::proofs::Growing::objects_found))]
fn class_found<'a>(
    isolate: &Isolate,
    kept: &'a Kept,
    stack: &Stack,
    index: u16,
) -> Option<&'a ObjectsAt>
    requires frame { IsSome stack.now.rest.below.key }
    requires method { RunsMethod stack.now }
    requires keys { AreKeys isolate.now stack.now }
    requires kept { AreKept isolate.now kept.now }
    ensures { IfSome result (λ at. HasObjects isolate.now at.now (class_entry (look_of isolate.now) index (top_named isolate.now stack.now))) }
{
    match stack.top() {
        Some(key) => match kept.get(key.mirror, index, Asked::Objects) {
            Some(Meaning::Objects(at)) => Some(at),
            _ => None,
        },
        None => unreachable!(),
    }
}

/// The number of a class and how many fields its objects have, where it can be loaded and they can be counted.
fn objects_at<L: Ledger>(
    isolate: &mut Isolate,
    table: &Table,
    class: &Class,
    steps: &mut Steps<L>,
) -> Option<ObjectsAt>
    requires files { table.now.files ≡ isolate.old.files }
    ensures at { (definition : Result Lineage StopOf) → definition ≡ Ok class.now → IfSome result (λ at. HasObjects isolate.new at definition) }
    ensures same { named isolate.new ≡ named isolate.old }
    ensures links { isolate.new.env.links ≡ isolate.old.env.links }
    ensures grows { Grows isolate.old isolate.new }
{
    let name = match own_name(class.file()) {
        Some(name) => name,
        None => return None,
    };
    let fields = match field_count(class) {
        Some(fields) => fields,
        None => return None,
    };
    match isolate.load(table, name, steps) {
        Ok(mirror) => Some(ObjectsAt { mirror, fields }),
        Err(_) => None,
    }
}

/// Keeps the class with objects that the entry of an index of the constant pool of the current frame's class names, where that is to be found.
#[tactic(auto, using(crate::proofs::Growing::objects_kept, crate::proofs::Growing::kept_grows))]
fn keep_objects<L: Ledger>(
    isolate: &mut Isolate,
    table: &Table,
    kept: &mut Kept,
    stack: &Stack,
    index: u16,
    steps: &mut Steps<L>,
)
    requires files { table.now.files ≡ isolate.old.files }
    requires frame { IsSome stack.now.rest.below.key }
    requires method { RunsMethod stack.now }
    requires keys { AreKeys isolate.old stack.now }
    requires kept { AreKept isolate.old kept.old }
    ensures kept { AreKept isolate.new kept.new }
    ensures same { named isolate.new ≡ named isolate.old }
    ensures links { isolate.new.env.links ≡ isolate.old.env.links }
    ensures grows { Grows isolate.old isolate.new }
{
    if let Some(key) = stack.top() {
        if let Ok(found) = entry_at(isolate, table, stack, index, steps) {
            if let Ok(class) = class_of_objects(&found) {
                if let Some(at) = objects_at(isolate, table, class, steps) {
                    kept.keep(Entry {
                        home: key.mirror,
                        index,
                        meaning: Meaning::Objects(at),
                    });
                }
            }
        }
    }
}

/// The same, unless it is kept.
#[tactic(auto, using(mvm_isolate::proofs::Keeping::grows_same))]
fn look_up<L: Ledger>(
    isolate: &mut Isolate,
    table: &Table,
    kept: &mut Kept,
    stack: &Stack,
    index: u16,
    steps: &mut Steps<L>,
)
    requires files { table.now.files ≡ isolate.old.files }
    requires frame { IsSome stack.now.rest.below.key }
    requires method { RunsMethod stack.now }
    requires keys { AreKeys isolate.old stack.now }
    requires kept { AreKept isolate.old kept.old }
    ensures kept { AreKept isolate.new kept.new }
    ensures same { named isolate.new ≡ named isolate.old }
    ensures links { isolate.new.env.links ≡ isolate.old.env.links }
    ensures grows { Grows isolate.old isolate.new }
{
    if class_found(isolate, kept, stack, index).is_none() {
        keep_objects(isolate, table, kept, stack, index, steps);
    }
}

/// `new` of the class of a number, which is initialised.
#[tactic(auto, using(crate::proofs::AtOnce::once_done))]
fn make_done(
    isolate: &mut Isolate,
    stack: &mut Stack,
    thread: u32,
    at: ObjectsAt,
    next: u32,
) -> Result<ThreadState, Stop>
    requires frame { IsSome stack.old.rest.below.key }
    requires method { RunsMethod stack.old }
    requires keys { AreKeys isolate.old stack.old }
    requires class { IsClass isolate.old at.mirror }
    requires done { begun thread ((named isolate.old).classes.states (name_at isolate.old at.mirror)) ≡ Begin.Done }
    ensures does { (c : Context) → IsFor c isolate.old thread → Comes result (once_initialised c (name_at isolate.old at.mirror) (point_of isolate.old stack.old) (object_pushed c next (name_at isolate.old at.mirror) at.fields)) isolate.new stack.new c.object }
    ensures state { IfOk result (IsState isolate.new) }
    ensures below { stack.new.rest.below ≡ stack.old.rest.below }
    ensures stack { OnErr result (stack.new ≡ stack.old) }
    ensures err { OnErr result (named isolate.new ≡ named isolate.old) }
    ensures links { isolate.new.env.links ≡ isolate.old.env.links }
    ensures grows { Grows isolate.old isolate.new }
{
    let _class = isolate.class(at.mirror);
    object_pushed(isolate, stack, at.mirror, at.fields, next)?;
    Ok(ThreadState::Ready)
}

/// `new` by what is kept, of a class that is initialised.
#[tactic(auto, unfolding(mvm_object::specs::Objects::make_object))]
fn make_kept(
    isolate: &mut Isolate,
    stack: &mut Stack,
    thread: u32,
    at: ObjectsAt,
    index: u16,
    next: u32,
) -> Result<ThreadState, Stop>
    requires frame { IsSome stack.old.rest.below.key }
    requires method { RunsMethod stack.old }
    requires keys { AreKeys isolate.old stack.old }
    requires at { HasObjects isolate.old at (class_entry (look_of isolate.old) index (top_named isolate.old stack.old)) }
    requires done { begun thread ((named isolate.old).classes.states (name_at isolate.old at.mirror)) ≡ Begin.Done }
    ensures does { (c : Context) → IsFor c isolate.old thread → Comes result (make_object c index next (point_of isolate.old stack.old)) isolate.new stack.new c.object }
    ensures state { IfOk result (IsState isolate.new) }
    ensures below { stack.new.rest.below ≡ stack.old.rest.below }
    ensures stack { OnErr result (stack.new ≡ stack.old) }
    ensures err { OnErr result (named isolate.new ≡ named isolate.old) }
    ensures links { isolate.new.env.links ≡ isolate.old.env.links }
    ensures grows { Grows isolate.old isolate.new }
{
    make_done(isolate, stack, thread, at, next)
}

/// `new`, by what is kept of its entry if anything is.
fn make_by<L: Ledger>(
    isolate: &mut Isolate,
    table: &Table,
    kept: &Kept,
    stack: &mut Stack,
    thread: u32,
    index: u16,
    next: u32,
    steps: &mut Steps<L>,
) -> Result<ThreadState, Stop>
    requires files { table.now.files ≡ isolate.old.files }
    requires frame { IsSome stack.old.rest.below.key }
    requires method { RunsMethod stack.old }
    requires keys { AreKeys isolate.old stack.old }
    requires limits { IsStackOf isolate.old.env.launch.limits stack.old }
    requires kept { AreKept isolate.old kept.now }
    ensures does { (c : Context) → IsFor c isolate.old thread → Comes result (make_object c index next (point_of isolate.old stack.old)) isolate.new stack.new c.object }
    ensures state { IfOk result (IsState isolate.new) }
    ensures frame { IsSome stack.new.rest.below.key }
    ensures keys { AreKeys isolate.new stack.new }
    ensures limits { IsStackOf isolate.new.env.launch.limits stack.new }
    ensures stack { OnErr result (stack.new ≡ stack.old) }
    ensures err { OnErr result (named isolate.new ≡ named isolate.old) }
    ensures links { isolate.new.env.links ≡ isolate.old.env.links }
    ensures grows { Grows isolate.old isolate.new }
{
    if let Some(at) = class_found(isolate, kept, stack, index) {
        if goes(isolate, thread, at.mirror) {
            return make_kept(isolate, stack, thread, *at, index, next);
        }
    }
    mvm_object::make_object(isolate, table, stack, thread, index, next, steps)
}

/// `new`, by what is kept of its entry, which is kept from now on if it is to be found.
///
/// # Errors
///
/// Those of `new` by names.
pub fn make_object<L: Ledger>(
    isolate: &mut Isolate,
    table: &Table,
    kept: &mut Kept,
    stack: &mut Stack,
    thread: u32,
    index: u16,
    next: u32,
    steps: &mut Steps<L>,
) -> Result<ThreadState, Stop>
    requires files { table.now.files ≡ isolate.old.files }
    requires frame { IsSome stack.old.rest.below.key }
    requires method { RunsMethod stack.old }
    requires keys { AreKeys isolate.old stack.old }
    requires limits { IsStackOf isolate.old.env.launch.limits stack.old }
    requires kept { AreKept isolate.old kept.old }
    ensures does { (c : Context) → IsFor c isolate.old thread → Comes result (make_object c index next (point_of isolate.old stack.old)) isolate.new stack.new c.object }
    ensures state { IfOk result (IsState isolate.new) }
    ensures frame { IsSome stack.new.rest.below.key }
    ensures keys { AreKeys isolate.new stack.new }
    ensures limits { IsStackOf isolate.new.env.launch.limits stack.new }
    ensures stack { OnErr result (stack.new ≡ stack.old) }
    ensures err { OnErr result (named isolate.new ≡ named isolate.old) }
    ensures links { isolate.new.env.links ≡ isolate.old.env.links }
    ensures kept { AreKept isolate.new kept.new }
    ensures grows { Grows isolate.old isolate.new }
{
    look_up(isolate, table, kept, stack, index, steps);
    make_by(isolate, table, kept, stack, thread, index, next, steps)
}
