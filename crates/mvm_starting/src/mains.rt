//! How the first thread starts (JVM Specification 5.2).

ghost use Rattle.std.specs.Prelude.{◌≡◌, ◌<◌, ℕ, Err, IfErr, IfOk, IsSome, OnErr, codes};
ghost use Rattle.mvm_base.specs.Answers.{Fails};
ghost use Rattle.mvm_isolate.specs.Numbered.{look_of, name_at, named, IsClass};
ghost use Rattle.mvm_isolate.specs.Sound.{Grows};
ghost use Rattle.mvm_current.specs.Keys.{AreKeys, IsStackOf};
ghost use Rattle.mvm_invoke.specs.Found.{HasMember};
ghost use Rattle.mvm_object.specs.Coming.{point_of, IsFor, IsState};
ghost use Rattle.mvm_object.specs.Going.{Context};
ghost use Rattle.mvm_starting.specs.Firsts.{IsFirst};
ghost use Rattle.mvm_starting.specs.Left.{LeavesState};
ghost use Rattle.mvm_starting.specs.Starting.{main_called, main_entered, main_found, main_in, main_of, main_started, main_synchronized, main_unlocked, start_main};

use crate::firsts::{First, first_of, first_room, started};
use mvm_base::{Name, Steps};
use mvm_frame::Stack;
use mvm_initialise::{MainLock, locked_main, main_arguments};
use mvm_isolate::{Isolate, Stop};
use mvm_layout::flags::{PUBLIC, SYNCHRONIZED, has_flag, is_static};
use mvm_member::{MemberName, method_named};
use mvm_native::Thrown;
use mvm_object::{Once, ThreadState, once_initialised};
use mvm_select::find_method;
use mvm_set::{Class, MethodAt, Shared};
use mvm_table::Table;
use std::sync::ledger::Ledger;

/// The method main that was found, which has to be public and static.
///
/// # Errors
///
/// A `NoSuchMethodError` where it is not.
fn of_main(method: MethodAt) -> Result<MethodAt, Stop>
    ensures ok { IfOk result (λ main. HasMember main (main_found method)) }
    ensures err { IfErr result (λ stop. (main_found method) ≡ Err stop) }
{
    match method_named(&method) {
        Some(member) => {
            if has_flag(PUBLIC, member.flags()) && is_static(member.flags()) {
                Ok(method)
            } else {
                Err(Stop::Throw(Thrown::NoSuchMethodError))
            }
        }
        None => Err(Stop::Throw(Thrown::VerifyError)),
    }
}

/// The public static method main of a class, by the rule of resolution (JVM Specification 5.4.3.3) without access.
///
/// # Errors
///
/// A `NoSuchMethodError` where there is none.
#[tactic(auto, unfolding(crate::specs::Starting::main_of))]
fn main_of(class: Shared<Class>, name: &Name, desc: &Name) -> Result<MethodAt, Stop>
    requires name { name.now ≡ codes "main" }
    requires desc { desc.now ≡ codes "([Ljava/lang/String;)V" }
    ensures ok { IfOk result (λ method. HasMember method (main_of class)) }
    ensures err { IfErr result (λ stop. main_of class ≡ Err stop) }
{
    match find_method(class.get(), name, desc) {
        Ok(found) => of_main(MethodAt { class, found }),
        Err(_) => Err(Stop::Throw(Thrown::NoSuchMethodError)),
    }
}

/// The same of the class of a number.
fn main_in(isolate: &Isolate, mirror: u32) -> Result<MethodAt, Stop>
    requires class { IsClass isolate.now mirror }
    ensures ok { IfOk result (λ method. HasMember method (main_in (look_of isolate.now) (name_at isolate.now mirror))) }
    ensures err { IfErr result (λ stop. Fails Stop.OutOfMemory stop (main_in (look_of isolate.now) (name_at isolate.now mirror))) }
{
    let name = Name::from_ascii(isolate.alloc(), "main")?;
    let desc = Name::from_ascii(isolate.alloc(), "([Ljava/lang/String;)V")?;
    match isolate.class(mirror).share() {
        Ok(class) => main_of(class, &name, &desc),
        Err(_) => Err(Stop::OutOfMemory),
    }
}

/// A main that is not synchronized is called: the arguments are made, and then its frame takes the place of that of the start.
#[tactic(auto, unfolding(crate::specs::Starting::main_unlocked))]
fn main_unlocked(
    isolate: &mut Isolate,
    stack: &mut Stack,
    member: &MemberName<'_>,
    first: First,
) -> Result<ThreadState, Stop>
    requires frame { IsSome stack.old.rest.below.key }
    requires keys { AreKeys isolate.old stack.old }
    requires limits { IsStackOf isolate.old.env.launch.limits stack.old }
    requires first { IsFirst isolate.old member.now first }
    ensures does { (c : Context) (thread : ℕ) → IsFor c isolate.old thread → LeavesState result (main_unlocked c member.now first.head (point_of isolate.old stack.old)) isolate.new stack.new c.object }
    ensures grows { Grows isolate.old isolate.new }
    ensures links { isolate.new.env.links ≡ isolate.old.env.links }
    ensures keys { AreKeys isolate.new stack.new }
    ensures limits { IsStackOf isolate.new.env.launch.limits stack.new }
    ensures state { IfOk result (λ state. IsState isolate.new state) }
    ensures err { OnErr result (named isolate.new ≡ named isolate.old) }
    ensures stack { OnErr result (stack.new ≡ stack.old) }
{
    let room = first_room(stack, first.head);
    match main_arguments(isolate, room) {
        Ok(arguments) => {
            started(stack, first, None, arguments);
            Ok(ThreadState::Ready)
        }
        Err(stop) => Err(stop),
    }
}

/// A synchronized main is called: its thread enters the monitor of its class object before the arguments are made, or waits.
#[tactic(auto, unfolding(crate::specs::Starting::main_synchronized))]
fn main_synchronized(
    isolate: &mut Isolate,
    stack: &mut Stack,
    thread: u32,
    member: &MemberName<'_>,
    first: First,
) -> Result<ThreadState, Stop>
    requires frame { IsSome stack.old.rest.below.key }
    requires keys { AreKeys isolate.old stack.old }
    requires limits { IsStackOf isolate.old.env.launch.limits stack.old }
    requires thread { thread < 64 }
    requires first { IsFirst isolate.old member.now first }
    ensures does { (c : Context) → IsFor c isolate.old thread → LeavesState result (main_synchronized c member.now first.head (point_of isolate.old stack.old)) isolate.new stack.new c.object }
    ensures grows { Grows isolate.old isolate.new }
    ensures links { isolate.new.env.links ≡ isolate.old.env.links }
    ensures keys { AreKeys isolate.new stack.new }
    ensures limits { IsStackOf isolate.new.env.launch.limits stack.new }
    ensures state { IfOk result (λ state. IsState isolate.new state) }
    ensures err { OnErr result (named isolate.new ≡ named isolate.old) }
    ensures stack { OnErr result (stack.new ≡ stack.old) }
{
    let room = first_room(stack, first.head);
    match locked_main(isolate, room, thread, first.key.mirror) {
        Ok(MainLock::Entered(call)) => {
            started(stack, first, Some(call.lock), call.arguments);
            Ok(ThreadState::Ready)
        }
        Ok(MainLock::Waits(object)) => Ok(ThreadState::Entering(object, 0)),
        Err(stop) => Err(stop),
    }
}

/// Main is called, which has code.
fn main_entered(
    isolate: &mut Isolate,
    stack: &mut Stack,
    thread: u32,
    member: &MemberName<'_>,
    first: First,
) -> Result<ThreadState, Stop>
    requires frame { IsSome stack.old.rest.below.key }
    requires keys { AreKeys isolate.old stack.old }
    requires limits { IsStackOf isolate.old.env.launch.limits stack.old }
    requires thread { thread < 64 }
    requires first { IsFirst isolate.old member.now first }
    ensures does { (c : Context) → IsFor c isolate.old thread → LeavesState result (main_entered c member.now (point_of isolate.old stack.old) first.head) isolate.new stack.new c.object }
    ensures grows { Grows isolate.old isolate.new }
    ensures links { isolate.new.env.links ≡ isolate.old.env.links }
    ensures keys { AreKeys isolate.new stack.new }
    ensures limits { IsStackOf isolate.new.env.launch.limits stack.new }
    ensures state { IfOk result (λ state. IsState isolate.new state) }
    ensures err { OnErr result (named isolate.new ≡ named isolate.old) }
    ensures stack { OnErr result (stack.new ≡ stack.old) }
{
    if has_flag(SYNCHRONIZED, first.head.flags) {
        main_synchronized(isolate, stack, thread, member, first)
    } else {
        main_unlocked(isolate, stack, member, first)
    }
}

/// This method is called as main; without code nothing is made.
#[tactic(auto, unfolding(crate::specs::Starting::main_started))]
fn main_started<L: Ledger>(
    isolate: &mut Isolate,
    table: &Table,
    stack: &mut Stack,
    thread: u32,
    member: &MemberName<'_>,
    steps: &mut Steps<L>,
) -> Result<ThreadState, Stop>
    requires files { table.now.files ≡ isolate.old.files }
    requires frame { IsSome stack.old.rest.below.key }
    requires keys { AreKeys isolate.old stack.old }
    requires limits { IsStackOf isolate.old.env.launch.limits stack.old }
    requires thread { thread < 64 }
    ensures does { (c : Context) → IsFor c isolate.old thread → LeavesState result (main_started c (point_of isolate.old stack.old) member.now) isolate.new stack.new c.object }
    ensures grows { Grows isolate.old isolate.new }
    ensures links { isolate.new.env.links ≡ isolate.old.env.links }
    ensures keys { AreKeys isolate.new stack.new }
    ensures limits { IsStackOf isolate.new.env.launch.limits stack.new }
    ensures state { IfOk result (λ state. IsState isolate.new state) }
    ensures err { OnErr result (named isolate.new ≡ named isolate.old) }
    ensures stack { OnErr result (stack.new ≡ stack.old) }
{
    match first_of(isolate, table, member, steps) {
        Ok(first) => main_entered(isolate, stack, thread, member, first),
        Err(stop) => Err(stop),
    }
}

/// The main of the class of a number is called, which is the main class.
#[tactic(auto, unfolding(crate::specs::Starting::main_called))]
fn main_called<L: Ledger>(
    isolate: &mut Isolate,
    table: &Table,
    stack: &mut Stack,
    thread: u32,
    mirror: u32,
    steps: &mut Steps<L>,
) -> Result<ThreadState, Stop>
    requires files { table.now.files ≡ isolate.old.files }
    requires frame { IsSome stack.old.rest.below.key }
    requires keys { AreKeys isolate.old stack.old }
    requires limits { IsStackOf isolate.old.env.launch.limits stack.old }
    requires thread { thread < 64 }
    requires class { IsClass isolate.old mirror }
    requires name { name_at isolate.old mirror ≡ isolate.old.env.launch.main }
    ensures does { (c : Context) → IsFor c isolate.old thread → LeavesState result (main_called c (point_of isolate.old stack.old)) isolate.new stack.new c.object }
    ensures grows { Grows isolate.old isolate.new }
    ensures links { isolate.new.env.links ≡ isolate.old.env.links }
    ensures keys { AreKeys isolate.new stack.new }
    ensures limits { IsStackOf isolate.new.env.launch.limits stack.new }
    ensures state { IfOk result (λ state. IsState isolate.new state) }
    ensures err { OnErr result (named isolate.new ≡ named isolate.old) }
    ensures stack { OnErr result (stack.new ≡ stack.old) }
{
    let method = main_in(isolate, mirror)?;
    match method_named(&method) {
        Some(member) => main_started(isolate, table, stack, thread, &member, steps),
        None => unreachable!(),
    }
}

/// The first thread starts: the main class is initialised, and then its main is called.
#[tactic(auto, unfolding(crate::specs::Starting::start_main))]
pub(crate) fn start_main<L: Ledger>(
    isolate: &mut Isolate,
    table: &Table,
    stack: &mut Stack,
    thread: u32,
    steps: &mut Steps<L>,
) -> Result<ThreadState, Stop>
    requires files { table.now.files ≡ isolate.old.files }
    requires frame { IsSome stack.old.rest.below.key }
    requires keys { AreKeys isolate.old stack.old }
    requires limits { IsStackOf isolate.old.env.launch.limits stack.old }
    requires thread { thread < 64 }
    ensures does { (c : Context) → IsFor c isolate.old thread → LeavesState result (start_main c (point_of isolate.old stack.old)) isolate.new stack.new c.object }
    ensures grows { Grows isolate.old isolate.new }
    ensures links { isolate.new.env.links ≡ isolate.old.env.links }
    ensures keys { AreKeys isolate.new stack.new }
    ensures limits { IsStackOf isolate.new.env.launch.limits stack.new }
    ensures state { IfOk result (λ state. IsState isolate.new state) }
    ensures err { OnErr result (named isolate.new ≡ named isolate.old) }
    ensures stack { OnErr result (stack.new ≡ stack.old) }
{
    let class = isolate.launch().main.copy()?;
    match once_initialised(isolate, table, stack, thread, &class, steps)? {
        Once::Goes(mirror) => main_called(isolate, table, stack, thread, mirror, steps),
        Once::Ends(state) => Ok(state),
    }
}
