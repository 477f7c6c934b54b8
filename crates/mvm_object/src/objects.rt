//! New objects (JVM Specification 6.5: new).

ghost use Rattle.std.specs.Prelude.{◌≡◌, Ok, Some, IsSome, IfOk, IfErr, OnErr};
ghost use Rattle.mvm_select.specs.Names.{on_ok};
ghost use Rattle.mvm_table.specs.Slots.{instance_fields};
ghost use Rattle.mvm_isolate.specs.Numbered.{look_of, name_at, named, IsClass};
ghost use Rattle.mvm_isolate.specs.Sound.{Grows};
ghost use Rattle.mvm_current.specs.Keys.{AreKeys, IsStackOf, RunsMethod};
ghost use Rattle.mvm_object.specs.Coming.{point_of, Comes, GoesOn, IsFor, IsState};
ghost use Rattle.mvm_object.specs.Entries.{once_initialised};
ghost use Rattle.mvm_object.specs.Going.{Context};
ghost use Rattle.mvm_object.specs.Objects.{class_of_objects, make_object, object_pushed};

use crate::going::pushing;
use crate::initialised::{Once, once_initialised};
use crate::state::ThreadState;
use mvm_base::{Kind, Name, Steps, Word};
use mvm_current::{entry_at, may_push, name_of};
use mvm_frame::Stack;
use mvm_isolate::{Isolate, Stop};
use mvm_layout::flags::{ABSTRACT, INTERFACE, has_flag};
use mvm_member::field_count;
use mvm_native::Thrown;
use mvm_set::Class;
use mvm_table::{Resolved, Table};
use std::sync::ledger::Ledger;

/// The class of an entry, which may have objects: it is neither an interface nor abstract.
///
/// # Errors
///
/// An `InstantiationError` where it may not, a `VerifyError` where the entry is no class.
pub fn class_of_objects(found: &Resolved) -> Result<&Class, Stop>
    ensures { on_ok (λ class. class.now) result ≡ class_of_objects found.now }
{
    match found {
        Resolved::Class(class) => {
            let class = class.get();
            let flags = class.file().parts().flags;
            if has_flag(INTERFACE, flags) || has_flag(ABSTRACT, flags) {
                Err(Stop::Throw(Thrown::InstantiationError))
            } else {
                Ok(class)
            }
        }
        _ => Err(Stop::Throw(Thrown::VerifyError)),
    }
}

/// A new object of the class of a number is pushed, if a reference fits on the operands. It takes no memory of the machine's own.
///
/// # Errors
///
/// An `OutOfMemoryError`, or a `VerifyError` where no reference fits.
#[tactic(auto, unfolding(crate::specs::Objects::object_pushed), using(mvm_current::proofs::Growth::top_grows, mvm_current::proofs::Growth::callers_grow, mvm_isolate::proofs::Keeping::grows_same))]
pub fn object_pushed(
    isolate: &mut Isolate,
    stack: &mut Stack,
    mirror: u32,
    fields: u32,
    next: u32,
) -> Result<(), Stop>
    requires frame { IsSome stack.old.rest.below.key }
    requires method { RunsMethod stack.old }
    requires keys { AreKeys isolate.old stack.old }
    requires class { IsClass isolate.old mirror }
    ensures does { (c : Context) → GoesOn result (object_pushed c next (name_at isolate.old mirror) fields (point_of isolate.old stack.old)) isolate.new stack.new c.object }
    ensures below { stack.new.rest.below ≡ stack.old.rest.below }
    ensures stack { OnErr result (stack.new ≡ stack.old) }
    ensures err { OnErr result (named isolate.new ≡ named isolate.old) }
    ensures links { isolate.new.env.links ≡ isolate.old.env.links }
    ensures grows { Grows isolate.old isolate.new }
{
    may_push(stack, Kind::Ref)?;
    let object = isolate.new_object(mirror, fields)?;
    pushing(stack, Word::Ref(object), next)
}

/// `new` of the class of a name, whose objects have so many fields.
#[tactic(auto, using(mvm_current::proofs::Growth::keys_grow, mvm_isolate::proofs::Keeping::grows_then))]
fn make_named<L: Ledger>(
    isolate: &mut Isolate,
    table: &Table,
    stack: &mut Stack,
    thread: u32,
    name: &Name,
    fields: u32,
    next: u32,
    steps: &mut Steps<L>,
) -> Result<ThreadState, Stop>
    requires files { table.now.files ≡ isolate.old.files }
    requires frame { IsSome stack.old.rest.below.key }
    requires method { RunsMethod stack.old }
    requires keys { AreKeys isolate.old stack.old }
    requires limits { IsStackOf isolate.old.env.launch.limits stack.old }
    ensures does { (c : Context) → IsFor c isolate.old thread → Comes result (once_initialised c name.now (point_of isolate.old stack.old) (object_pushed c next name.now fields)) isolate.new stack.new c.object }
    ensures state { IfOk result (IsState isolate.new) }
    ensures frame { IsSome stack.new.rest.below.key }
    ensures keys { AreKeys isolate.new stack.new }
    ensures limits { IsStackOf isolate.new.env.launch.limits stack.new }
    ensures stack { OnErr result (stack.new ≡ stack.old) }
    ensures err { OnErr result (named isolate.new ≡ named isolate.old) }
    ensures links { isolate.new.env.links ≡ isolate.old.env.links }
    ensures grows { Grows isolate.old isolate.new }
{
    match once_initialised(isolate, table, stack, thread, name, steps)? {
        Once::Goes(mirror) => {
            object_pushed(isolate, stack, mirror, fields, next)?;
            Ok(ThreadState::Ready)
        }
        Once::Ends(state) => Ok(state),
    }
}

/// `new`.
///
/// # Errors
///
/// What is thrown for the first fault of the resolution, an `InstantiationError`, what is thrown for the first fault of loading, linking or
/// initialising the class, an `OutOfMemoryError`, or a `VerifyError` for what linked code has not.
#[tactic(auto, unfolding(crate::specs::Objects::make_object))]
pub fn make_object<L: Ledger>(
    isolate: &mut Isolate,
    table: &Table,
    stack: &mut Stack,
    thread: u32,
    index: u16,
    next: u32,
    steps: &mut Steps<L>,
) -> Result<ThreadState, Stop>
    requires files { table.now.files ≡ isolate.old.files }
    requires frame { IsSome stack.old.rest.below.key }
    requires method { RunsMethod stack.old }
    requires keys { AreKeys isolate.old stack.old }
    requires limits { IsStackOf isolate.old.env.launch.limits stack.old }
    ensures does { (c : Context) → IsFor c isolate.old thread → Comes result (make_object c index next (point_of isolate.old stack.old)) isolate.new stack.new c.object }
    ensures state { IfOk result (IsState isolate.new) }
    ensures frame { IsSome stack.new.rest.below.key }
    ensures keys { AreKeys isolate.new stack.new }
    ensures limits { IsStackOf isolate.new.env.launch.limits stack.new }
    ensures stack { OnErr result (stack.new ≡ stack.old) }
    ensures err { OnErr result (named isolate.new ≡ named isolate.old) }
    ensures links { isolate.new.env.links ≡ isolate.old.env.links }
    ensures grows { Grows isolate.old isolate.new }
{
    let found = entry_at(isolate, table, stack, index, steps)?;
    let class = class_of_objects(&found)?;
    let name = name_of(class)?;
    match field_count(class) {
        Some(fields) => make_named(isolate, table, stack, thread, name, fields, next, steps),
        None => Err(Stop::OutOfMemory),
    }
}
