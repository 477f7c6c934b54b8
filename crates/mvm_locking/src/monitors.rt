//! Monitors (JVM Specification 2.11.10, 6.5: monitorenter, monitorexit; Java Language Specification, SE 8, 17.1, 17.2).

ghost use Rattle.std.specs.Prelude.{◌≡◌, ◌≢◌, ◌<◌, ◌≤◌, ◌^◌, false, length, Ok, Some, IsSome, OnErr, IfErr, IfOk, Result};
ghost use Rattle.mvm_isolate.specs.Isolate.{Isolate as IsolateOf};
ghost use Rattle.mvm_isolate.specs.Monitors.{monitor_at};
ghost use Rattle.mvm_isolate.specs.Numbered.{named, Numbered};
ghost use Rattle.mvm_isolate.specs.Sound.{Grows};
ghost use Rattle.mvm_isolate.specs.declared.stop.Stop.{Stop as StopOf};
ghost use Rattle.mvm_monitor.specs.Monitors.{exited};
ghost use Rattle.mvm_current.specs.Frames.{at_place, without};
ghost use Rattle.mvm_current.specs.Keys.{top_named, AreKeys, IsStackOf, RunsMethod};
ghost use Rattle.mvm_object.specs.Coming.{point_of, Comes, GoesOn, IsState};
ghost use Rattle.mvm_object.specs.Going.{entering, stays, Context, Point, Went};
ghost use Rattle.mvm_locking.specs.Monitors.{count_in, monitor_enter, monitor_exit, monitor_freed, monitor_taken, once_entered, owns, released, unlocked, Enters};
ghost use Rattle.mvm_base.specs.Answers.{Does};

use mvm_current::set_place;
use mvm_frame::Stack;
use mvm_heap::Monitor;
use mvm_initialise::monitor_entered;
use mvm_isolate::{Isolate, Stop};
use mvm_native::Thrown;
use mvm_object::{ThreadState, top_object};

/// Enters the monitor of an object for a thread, one of 64, and answers true; false where another thread owns it: then the thread waits, and
/// makes its attempt anew.
///
/// # Errors
///
/// A `VerifyError` where there is no such object; `OutOfMemory` where the thread entered it 2^32 times already.
#[tactic(auto, unfolding(crate::specs::Monitors::once_entered, mvm_initialise::specs::Locks::monitor_entered))]
pub fn once_entered(isolate: &mut Isolate, thread: u32, object: u32) -> Result<bool, Stop>
    requires thread { thread < 64 }
    ensures does { (c : Context) (p : Point) (go : IsolateOf → Result Went StopOf) → c.thread ≡ thread → p.isolate ≡ named isolate.old → Enters result (once_entered c object p go) go (stays c (entering object 0) p) (named isolate.new) }
    ensures waits { result ≡ Ok false → named isolate.new ≡ named isolate.old }
    ensures err { OnErr result (named isolate.new ≡ named isolate.old) }
    ensures links { isolate.new.env.links ≡ isolate.old.env.links }
    ensures grows { Grows isolate.old isolate.new }
{
    match monitor_entered(isolate, thread, object) {
        Ok(Some(monitor)) => {
            isolate.set_monitor(object, monitor);
            Ok(true)
        }
        Ok(None) => Ok(false),
        Err(stop) => Err(stop),
    }
}

/// A monitor that its owner exited once.
fn exited(monitor: Monitor) -> Monitor
    ensures { result ≡ exited monitor }
{
    if monitor.count == 1 {
        Monitor {
            owner: None,
            count: 0,
        }
    } else {
        Monitor {
            owner: monitor.owner,
            count: monitor.count.saturating_sub(1),
        }
    }
}

/// Exits the monitor of an object once, if the thread, one of 64, owns it, and answers whether it does. It takes no memory.
#[tactic(auto, unfolding(crate::specs::Monitors::owns, crate::specs::Monitors::released, crate::specs::Monitors::monitor_exited), using(std::proofs::lemmas::Option::slice_get_past, mvm_isolate::proofs::Keeping::grows_same))]
fn exit(isolate: &mut Isolate, thread: u32, object: u32) -> bool
    requires thread { thread < 64 }
    ensures owns { result ≡ owns thread object (named isolate.old) }
    ensures does { named isolate.new ≡ released thread (Some object) (named isolate.old) }
    ensures links { isolate.new.env.links ≡ isolate.old.env.links }
    ensures grows { Grows isolate.old isolate.new }
{
    if object >= isolate.count() {
        return false;
    }
    let monitor = isolate.monitor(object);
    match monitor.owner {
        Some(owner) if owner == thread => {
            isolate.set_monitor(object, exited(monitor));
            true
        }
        Some(_) | None => false,
    }
}

/// The monitor of a frame that is left by a throw is exited, if the thread, one of 64, owns it (JVM Specification 2.11.10). It takes no memory.
#[tactic(auto, unfolding(crate::specs::Monitors::released), using(mvm_isolate::proofs::Keeping::grows_same))]
pub fn released(isolate: &mut Isolate, thread: u32, lock: Option<u32>)
    requires thread { thread < 64 }
    ensures does { named isolate.new ≡ released thread lock (named isolate.old) }
    ensures links { isolate.new.env.links ≡ isolate.old.env.links }
    ensures grows { Grows isolate.old isolate.new }
{
    if let Some(object) = lock {
        let _owns = exit(isolate, thread, object);
    }
}

/// The monitor of a frame that is left by a return is exited once. It takes no memory.
///
/// # Errors
///
/// An `IllegalMonitorStateException` where the thread, one of 64, does not own it.
#[tactic(auto, unfolding(crate::specs::Monitors::unlocked, crate::specs::Monitors::released), using(mvm_isolate::proofs::Keeping::grows_same))]
pub(crate) fn unlocked(isolate: &mut Isolate, thread: u32, lock: Option<u32>) -> Result<(), Stop>
    requires thread { thread < 64 }
    ensures does { Does result (unlocked thread lock (named isolate.old)) (named isolate.new) }
    ensures err { OnErr result (named isolate.new ≡ named isolate.old) }
    ensures memory { IfErr result (λ stop. stop ≢ Stop.OutOfMemory) }
    ensures links { isolate.new.env.links ≡ isolate.old.env.links }
    ensures grows { Grows isolate.old isolate.new }
{
    match lock {
        Some(object) => {
            if exit(isolate, thread, object) {
                Ok(())
            } else {
                Err(Stop::Throw(Thrown::IllegalMonitorStateException))
            }
        }
        None => Ok(()),
    }
}

/// The reference on top of the operands is taken off, and the method goes on.
fn off_and_on(stack: &mut Stack, next: u32)
    requires frame { IsSome stack.old.rest.below.key }
    requires method { RunsMethod stack.old }
    requires there { 1 ≤ length stack.old.operands.slots }
    ensures does { (n : Numbered) → top_named n stack.new ≡ at_place next (without 1 (top_named n stack.old)) }
    ensures below { stack.new.rest.below ≡ stack.old.rest.below }
{
    stack.drop_slots(1);
    set_place(stack, next);
}

/// `monitorenter`, by a thread, one of 64.
///
/// # Errors
///
/// A `NullPointerException`, or a `VerifyError` for what linked code has not.
#[tactic(auto, unfolding(crate::specs::Monitors::monitor_enter), using(crate::proofs::Tops::top_there, crate::proofs::Tops::top_off))]
pub fn monitor_enter(
    isolate: &mut Isolate,
    stack: &mut Stack,
    thread: u32,
    next: u32,
) -> Result<ThreadState, Stop>
    requires frame { IsSome stack.old.rest.below.key }
    requires method { RunsMethod stack.old }
    requires keys { AreKeys isolate.old stack.old }
    requires limits { IsStackOf isolate.old.env.launch.limits stack.old }
    requires thread { thread < 64 }
    ensures does { (c : Context) → c.thread ≡ thread → Comes result (monitor_enter c next (point_of isolate.old stack.old)) isolate.new stack.new c.object }
    ensures state { IfOk result (IsState isolate.new) }
    ensures frame { IsSome stack.new.rest.below.key }
    ensures keys { AreKeys isolate.new stack.new }
    ensures limits { IsStackOf isolate.new.env.launch.limits stack.new }
    ensures err { OnErr result (named isolate.new ≡ named isolate.old) }
    ensures stack { OnErr result (stack.new ≡ stack.old) }
    ensures links { isolate.new.env.links ≡ isolate.old.env.links }
    ensures grows { Grows isolate.old isolate.new }
{
    let object = top_object(stack)?;
    match once_entered(isolate, thread, object) {
        Ok(true) => {
            off_and_on(stack, next);
            Ok(ThreadState::Ready)
        }
        Ok(false) => Ok(ThreadState::Entering(object, 0)),
        Err(stop) => Err(stop),
    }
}

/// `monitorexit`, by a thread, one of 64. It takes no memory.
///
/// # Errors
///
/// An `IllegalMonitorStateException` where the thread does not own the monitor, a `NullPointerException`, or a `VerifyError` for what linked
/// code has not.
#[tactic(auto, unfolding(crate::specs::Monitors::monitor_exit, crate::specs::Monitors::released), using(crate::proofs::Tops::top_there, crate::proofs::Tops::top_off))]
pub fn monitor_exit(
    isolate: &mut Isolate,
    stack: &mut Stack,
    thread: u32,
    next: u32,
) -> Result<(), Stop>
    requires frame { IsSome stack.old.rest.below.key }
    requires method { RunsMethod stack.old }
    requires keys { AreKeys isolate.old stack.old }
    requires limits { IsStackOf isolate.old.env.launch.limits stack.old }
    requires thread { thread < 64 }
    ensures does { (c : Context) → c.thread ≡ thread → GoesOn result (monitor_exit c next (point_of isolate.old stack.old)) isolate.new stack.new c.object }
    ensures frame { IsSome stack.new.rest.below.key }
    ensures keys { AreKeys isolate.new stack.new }
    ensures limits { IsStackOf isolate.new.env.launch.limits stack.new }
    ensures err { OnErr result (named isolate.new ≡ named isolate.old) }
    ensures stack { OnErr result (stack.new ≡ stack.old) }
    ensures links { isolate.new.env.links ≡ isolate.old.env.links }
    ensures grows { Grows isolate.old isolate.new }
{
    let object = top_object(stack)?;
    if exit(isolate, thread, object) {
        off_and_on(stack, next);
        Ok(())
    } else {
        Err(Stop::Throw(Thrown::IllegalMonitorStateException))
    }
}

/// The monitor of an object is given up whole, and how many times it was entered is answered (Java Language Specification 17.2.1). It takes no
/// memory.
#[tactic(auto, unfolding(crate::specs::Monitors::monitor_freed), using(std::proofs::lemmas::Option::slice_get_past, mvm_isolate::proofs::Keeping::grows_same, crate::proofs::Beyond::set_beyond))]
pub fn monitor_freed(isolate: &mut Isolate, object: u32) -> u64
    ensures count { result ≡ count_in (monitor_at (named isolate.old) object) }
    ensures few { result ≤ 2 ^ 32 }
    ensures does { named isolate.new ≡ monitor_freed object (named isolate.old) }
    ensures links { isolate.new.env.links ≡ isolate.old.env.links }
    ensures grows { Grows isolate.old isolate.new }
{
    if object >= isolate.count() {
        return 0;
    }
    let monitor = isolate.monitor(object);
    isolate.set_monitor(
        object,
        Monitor {
            owner: None,
            count: 0,
        },
    );
    monitor.count
}

/// A thread, one of 64, that waited on an object takes its monitor again, with as many entries, at most 2^32 (Java Language Specification
/// 17.2.1). It takes no memory.
#[tactic(auto, unfolding(crate::specs::Monitors::monitor_taken), using(mvm_isolate::proofs::Keeping::grows_same, crate::proofs::Beyond::set_beyond))]
pub fn monitor_taken(isolate: &mut Isolate, thread: u32, object: u32, count: u64)
    requires thread { thread < 64 }
    requires few { count ≤ 2 ^ 32 }
    ensures does { named isolate.new ≡ monitor_taken thread object count (named isolate.old) }
    ensures links { isolate.new.env.links ≡ isolate.old.env.links }
    ensures grows { Grows isolate.old isolate.new }
{
    if object < isolate.count() {
        isolate.set_monitor(
            object,
            Monitor {
                owner: Some(thread),
                count,
            },
        );
    }
}
