//! The classes that instructions initialise (JVM Specification 5.5).

ghost use Rattle.std.specs.Prelude.{◌≡◌, ◌∷◌, ℕ, true, Ok, IsSome, IfOk, OnErr, Result};
ghost use Rattle.mvm_frame.specs.Calls.{fits};
ghost use Rattle.mvm_history.specs.declared.limits.Limits.{Limits as LimitsOf};
ghost use Rattle.mvm_isolate.specs.Numbered.{name_at, named, IsClass, Numbered};
ghost use Rattle.mvm_isolate.specs.Sound.{Grows};
ghost use Rattle.mvm_isolate.specs.declared.stop.Stop.{Stop as StopOf};
ghost use Rattle.mvm_current.specs.Frames.{bare_frame, initialising, SUPERS};
ghost use Rattle.mvm_current.specs.Keys.{callers_named, frames_named, top_named, AreKeys, IsStackOf};
ghost use Rattle.mvm_object.specs.Beginning.{Begins, IsBegun};
ghost use Rattle.mvm_object.specs.Coming.{point_of, IsFor};
ghost use Rattle.mvm_object.specs.Entries.{by_begin, once_begun, once_initialised};
ghost use Rattle.mvm_object.specs.Going.{Context, Point, Went};

use crate::state::ThreadState;
use mvm_base::{Name, Steps};
use mvm_current::{enter_bare, frames_law, room};
use mvm_frame::Stack;
use mvm_initialise::links_and_begins;
use mvm_isolate::{Isolate, Stop};
use mvm_mirror::Begin;
use mvm_native::Thrown;
use mvm_table::Table;
use std::sync::ledger::Ledger;

/// What an instruction does that wants a class initialised.
#[derive(Clone, Copy, Debug, PartialEq, Eq)]
pub enum Once {
    /// It goes on; the class has this number.
    Goes(u32),
    /// The attempt is at its end: the thread waits for another one, or a frame in which the class is initialised stands on the others.
    Ends(ThreadState),
}

/// A frame in which the class of a number is initialised stands on the others. There is room for it.
fn enter_initialiser(stack: &mut Stack, mirror: u32)
    requires room { fits 0 0 stack.old ≡ true }
    requires frame { IsSome stack.old.rest.below.key }
    ensures top { (n : Numbered) → top_named n stack.new ≡ bare_frame (initialising (name_at n mirror)) SUPERS }
    ensures callers { (n : Numbered) → callers_named n stack.new ≡ top_named n stack.old ∷ callers_named n stack.old }
    ensures frame { (n : Numbered) → IsSome stack.new.rest.below.key }
    ensures keys { (n : Numbered) → IsClass n mirror → AreKeys n stack.old → AreKeys n stack.new }
    ensures limits { (limits : LimitsOf) → IsStackOf limits stack.old → IsStackOf limits stack.new }
{
    frames_law();
    enter_bare(stack, mirror, 1);
}

/// What a thread does that wants the class of a number initialised, by how that begins.
///
/// # Errors
///
/// A `NoClassDefFoundError` where its initialisation failed.
pub fn begun_by(isolate: &Isolate, stack: &mut Stack, mirror: u32, way: Begin) -> Result<Once, Stop>
    requires frame { IsSome stack.old.rest.below.key }
    requires keys { AreKeys isolate.now stack.old }
    requires class { IsClass isolate.now mirror }
    requires room { way ≡ Begin.Run → fits 0 0 stack.old ≡ true }
    ensures does { (c : Context) (go : Point → Result Went StopOf) → Begins result (by_begin c (name_at isolate.now mirror) (point_of isolate.now stack.old) go (way, named isolate.now)) go isolate.now stack.new c.object }
    ensures begun { IfOk result (λ once. IsBegun (name_at isolate.now mirror) isolate.now stack.old stack.new once) }
    ensures done { (number : ℕ) → result ≡ Ok (Once.Goes number) → way ≡ Begin.Done }
    ensures frame { IsSome stack.new.rest.below.key }
    ensures keys { AreKeys isolate.now stack.new }
    ensures limits { (limits : LimitsOf) → IsStackOf limits stack.old → IsStackOf limits stack.new }
    ensures erroneous { OnErr result (way ≡ Begin.Erroneous) }
    ensures stack { OnErr result (stack.new ≡ stack.old) }
{
    match way {
        Begin::Done => Ok(Once::Goes(mirror)),
        Begin::Wait => Ok(Once::Ends(ThreadState::Initing(mirror))),
        Begin::Erroneous => Err(Stop::Throw(Thrown::NoClassDefFoundError)),
        Begin::Run => {
            enter_initialiser(stack, mirror);
            Ok(Once::Ends(ThreadState::Ready))
        }
    }
}

/// The same of the class of a number, which was loaded.
#[tactic(auto, using(mvm_current::proofs::Growth::keys_grow, mvm_current::proofs::Growth::is_class_grows, mvm_current::proofs::Growth::name_grows, crate::proofs::Beginning::done_same, crate::proofs::Beginning::erroneous_same, crate::proofs::Beginning::run_room))]
fn once_begun<L: Ledger>(
    isolate: &mut Isolate,
    table: &Table,
    stack: &mut Stack,
    thread: u32,
    mirror: u32,
    steps: &mut Steps<L>,
) -> Result<Once, Stop>
    requires files { table.now.files ≡ isolate.old.files }
    requires frame { IsSome stack.old.rest.below.key }
    requires keys { AreKeys isolate.old stack.old }
    requires limits { IsStackOf isolate.old.env.launch.limits stack.old }
    requires class { IsClass isolate.old mirror }
    ensures does { (c : Context) (go : Point → Result Went StopOf) → IsFor c isolate.old thread → Begins result (once_begun c (name_at isolate.old mirror) (point_of isolate.old stack.old) go) go isolate.new stack.new c.object }
    ensures begun { IfOk result (λ once. IsBegun (name_at isolate.old mirror) isolate.new stack.old stack.new once) }
    ensures keys { AreKeys isolate.new stack.new }
    ensures limits { IsStackOf isolate.new.env.launch.limits stack.new }
    ensures frame { IsSome stack.new.rest.below.key }
    // Where it goes on nothing has changed by names.
    ensures same { (mirror : ℕ) → result ≡ Ok (Once.Goes mirror) → named isolate.new ≡ named isolate.old }
    ensures err { OnErr result (named isolate.new ≡ named isolate.old) }
    ensures stack { OnErr result (stack.new ≡ stack.old) }
    ensures links { isolate.new.env.links ≡ isolate.old.env.links }
    ensures grows { Grows isolate.old isolate.new }
{
    let has_room = room(stack, 0, 0);
    match links_and_begins(isolate, table, has_room, thread, mirror, steps) {
        Ok(way) => begun_by(isolate, stack, mirror, way),
        Err(stop) => Err(stop),
    }
}

/// Looks whether the class of a name is initialised, or begins to initialise it.
///
/// # Errors
///
/// What is thrown for the first fault of loading or linking it, a `NoClassDefFoundError` where its initialisation failed, an `OutOfMemoryError`, a
/// `StackOverflowError`.
#[tactic(auto, unfolding(crate::specs::Entries::once_initialised), using(mvm_current::proofs::Growth::keys_grow, mvm_isolate::proofs::Keeping::grows_then))]
pub fn once_initialised<L: Ledger>(
    isolate: &mut Isolate,
    table: &Table,
    stack: &mut Stack,
    thread: u32,
    class: &Name,
    steps: &mut Steps<L>,
) -> Result<Once, Stop>
    requires files { table.now.files ≡ isolate.old.files }
    requires frame { IsSome stack.old.rest.below.key }
    requires keys { AreKeys isolate.old stack.old }
    requires limits { IsStackOf isolate.old.env.launch.limits stack.old }
    ensures does { (c : Context) (go : Point → Result Went StopOf) → IsFor c isolate.old thread → Begins result (once_initialised c class.now (point_of isolate.old stack.old) go) go isolate.new stack.new c.object }
    ensures begun { IfOk result (λ once. IsBegun class.now isolate.new stack.old stack.new once) }
    ensures keys { AreKeys isolate.new stack.new }
    ensures limits { IsStackOf isolate.new.env.launch.limits stack.new }
    ensures frame { IsSome stack.new.rest.below.key }
    // Where it goes on nothing has changed by names.
    ensures same { (mirror : ℕ) → result ≡ Ok (Once.Goes mirror) → named isolate.new ≡ named isolate.old }
    ensures err { OnErr result (named isolate.new ≡ named isolate.old) }
    ensures stack { OnErr result (stack.new ≡ stack.old) }
    ensures links { isolate.new.env.links ≡ isolate.old.env.links }
    ensures grows { Grows isolate.old isolate.new }
{
    let mirror = isolate.load(table, class, steps)?;
    let _class = isolate.class(mirror);
    once_begun(isolate, table, stack, thread, mirror, steps)
}
