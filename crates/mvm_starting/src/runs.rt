//! How a thread other than the first one starts (Java SE 8 API, java.lang.Thread).

ghost use Rattle.std.specs.Prelude.{◌≡◌, ◌<◌, true, IfOk, IsSome, OnErr};
ghost use Rattle.mvm_isolate.specs.Numbered.{named};
ghost use Rattle.mvm_isolate.specs.Sound.{Grows};
ghost use Rattle.mvm_current.specs.Keys.{AreKeys, IsStackOf};
ghost use Rattle.mvm_object.specs.Coming.{point_of, IsFor, IsState};
ghost use Rattle.mvm_object.specs.Going.{Context};
ghost use Rattle.mvm_starting.specs.Firsts.{has_place, IsFirst};
ghost use Rattle.mvm_starting.specs.Left.{LeavesState};
ghost use Rattle.mvm_starting.specs.Starting.{run_called, run_entered, run_locked, run_started};

use crate::firsts::{First, first_of, first_room, started};
use mvm_base::Steps;
use mvm_frame::Stack;
use mvm_invoke::run_selected;
use mvm_isolate::{Isolate, Stop};
use mvm_layout::flags::{SYNCHRONIZED, has_flag};
use mvm_locking::once_entered;
use mvm_member::{MemberName, method_named};
use mvm_native::Thrown;
use mvm_object::ThreadState;
use mvm_table::Table;
use std::sync::ledger::Ledger;

/// The frame of run takes the place of that of the start, where there is room for it; a synchronized one enters the monitor of the object first.
#[tactic(auto, unfolding(crate::specs::Starting::run_locked))]
fn run_locked(
    isolate: &mut Isolate,
    stack: &mut Stack,
    thread: u32,
    member: &MemberName<'_>,
    first: First,
    object: u32,
) -> Result<ThreadState, Stop>
    requires frame { IsSome stack.old.rest.below.key }
    requires keys { AreKeys isolate.old stack.old }
    requires limits { IsStackOf isolate.old.env.launch.limits stack.old }
    requires thread { thread < 64 }
    requires first { IsFirst isolate.old member.now first }
    requires room { has_place first.head stack.old ≡ true }
    ensures does { (c : Context) → IsFor c isolate.old thread → LeavesState result (run_locked c member.now first.head object (point_of isolate.old stack.old)) isolate.new stack.new c.object }
    ensures grows { Grows isolate.old isolate.new }
    ensures links { isolate.new.env.links ≡ isolate.old.env.links }
    ensures keys { AreKeys isolate.new stack.new }
    ensures limits { IsStackOf isolate.new.env.launch.limits stack.new }
    ensures state { IfOk result (λ state. IsState isolate.new state) }
    ensures err { OnErr result (named isolate.new ≡ named isolate.old) }
    ensures stack { OnErr result (stack.new ≡ stack.old) }
{
    if !has_flag(SYNCHRONIZED, first.head.flags) {
        started(stack, first, None, object);
        return Ok(ThreadState::Ready);
    }
    match once_entered(isolate, thread, object) {
        Ok(true) => {
            started(stack, first, Some(object), object);
            Ok(ThreadState::Ready)
        }
        Ok(false) => Ok(ThreadState::Entering(object, 0)),
        Err(stop) => Err(stop),
    }
}

/// Run is called, which has code. What may fail comes before anything changes.
fn run_entered(
    isolate: &mut Isolate,
    stack: &mut Stack,
    thread: u32,
    member: &MemberName<'_>,
    first: First,
    object: u32,
) -> Result<ThreadState, Stop>
    requires frame { IsSome stack.old.rest.below.key }
    requires keys { AreKeys isolate.old stack.old }
    requires limits { IsStackOf isolate.old.env.launch.limits stack.old }
    requires thread { thread < 64 }
    requires first { IsFirst isolate.old member.now first }
    ensures does { (c : Context) → IsFor c isolate.old thread → LeavesState result (run_entered c member.now object (point_of isolate.old stack.old) first.head) isolate.new stack.new c.object }
    ensures grows { Grows isolate.old isolate.new }
    ensures links { isolate.new.env.links ≡ isolate.old.env.links }
    ensures keys { AreKeys isolate.new stack.new }
    ensures limits { IsStackOf isolate.new.env.launch.limits stack.new }
    ensures state { IfOk result (λ state. IsState isolate.new state) }
    ensures err { OnErr result (named isolate.new ≡ named isolate.old) }
    ensures stack { OnErr result (stack.new ≡ stack.old) }
{
    if !first_room(stack, first.head) {
        return Err(Stop::Throw(Thrown::StackOverflowError));
    }
    run_locked(isolate, stack, thread, member, first, object)
}

/// This method is called as the run of an object.
#[tactic(auto, unfolding(crate::specs::Starting::run_started))]
fn run_started<L: Ledger>(
    isolate: &mut Isolate,
    table: &Table,
    stack: &mut Stack,
    thread: u32,
    object: u32,
    member: &MemberName<'_>,
    steps: &mut Steps<L>,
) -> Result<ThreadState, Stop>
    requires files { table.now.files ≡ isolate.old.files }
    requires frame { IsSome stack.old.rest.below.key }
    requires keys { AreKeys isolate.old stack.old }
    requires limits { IsStackOf isolate.old.env.launch.limits stack.old }
    requires thread { thread < 64 }
    ensures does { (c : Context) → IsFor c isolate.old thread → LeavesState result (run_started c object (point_of isolate.old stack.old) member.now) isolate.new stack.new c.object }
    ensures grows { Grows isolate.old isolate.new }
    ensures links { isolate.new.env.links ≡ isolate.old.env.links }
    ensures keys { AreKeys isolate.new stack.new }
    ensures limits { IsStackOf isolate.new.env.launch.limits stack.new }
    ensures state { IfOk result (λ state. IsState isolate.new state) }
    ensures err { OnErr result (named isolate.new ≡ named isolate.old) }
    ensures stack { OnErr result (stack.new ≡ stack.old) }
{
    match first_of(isolate, table, member, steps) {
        Ok(first) => run_entered(isolate, stack, thread, member, first, object),
        Err(stop) => Err(stop),
    }
}

/// `Thread.run`, selected in the class of the thread's object, is called.
#[tactic(auto, unfolding(crate::specs::Starting::run_called))]
pub(crate) fn run_called<L: Ledger>(
    isolate: &mut Isolate,
    table: &Table,
    stack: &mut Stack,
    thread: u32,
    object: u32,
    steps: &mut Steps<L>,
) -> Result<ThreadState, Stop>
    requires files { table.now.files ≡ isolate.old.files }
    requires frame { IsSome stack.old.rest.below.key }
    requires keys { AreKeys isolate.old stack.old }
    requires limits { IsStackOf isolate.old.env.launch.limits stack.old }
    requires thread { thread < 64 }
    ensures does { (c : Context) → IsFor c isolate.old thread → LeavesState result (run_called c (point_of isolate.old stack.old) object) isolate.new stack.new c.object }
    ensures grows { Grows isolate.old isolate.new }
    ensures links { isolate.new.env.links ≡ isolate.old.env.links }
    ensures keys { AreKeys isolate.new stack.new }
    ensures limits { IsStackOf isolate.new.env.launch.limits stack.new }
    ensures state { IfOk result (λ state. IsState isolate.new state) }
    ensures err { OnErr result (named isolate.new ≡ named isolate.old) }
    ensures stack { OnErr result (stack.new ≡ stack.old) }
{
    let method = run_selected(isolate, object)?;
    match method_named(&method) {
        Some(member) => run_started(isolate, table, stack, thread, object, &member, steps),
        None => unreachable!(),
    }
}
