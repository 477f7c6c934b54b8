//! Calls of methods with a receiver (JVM Specification 6.5: invokevirtual, invokespecial, invokeinterface).

ghost use Rattle.std.specs.Prelude.{◌≡◌, ◌<◌, ◌≤◌, length, Some, Ok, Err, IsSome, IfOk, IfErr, OnErr, OnOk};
ghost use Rattle.mvm_base.specs.Answers.{Fails};
ghost use Rattle.mvm_member.specs.Members.{method_named, MemberName as MemberNameOf};
ghost use Rattle.mvm_isolate.specs.Numbered.{look_of, named};
ghost use Rattle.mvm_isolate.specs.Sound.{Grows};
ghost use Rattle.mvm_current.specs.Keys.{AreKeys, IsStackOf, RunsMethod};
ghost use Rattle.mvm_object.specs.Coming.{point_of};
ghost use Rattle.mvm_object.specs.Going.{Context};
ghost use Rattle.mvm_invoke.specs.Calls.{interface_selected, invoke_interface, invoke_virtual, not_private, virtual_selected};
ghost use Rattle.mvm_invoke.specs.Found.{HasMember, HasTarget};
ghost use Rattle.mvm_invoke.specs.Leaving.{IsAfter, IsTold, Leaves, MayBegin};

use crate::caller::Caller;
use crate::calls::called_at;
use crate::left::{Left, Told};
use crate::receivers::{class_of, received_at, selected_in, virtual_selected};
use crate::targets::call_target;
use mvm_base::Steps;
use mvm_frame::Stack;
use mvm_isolate::{Isolate, Stop};
use mvm_layout::flags::{PRIVATE, has_flag};
use mvm_member::method_named;
use mvm_native::Thrown;
use mvm_select::select_interface;
use mvm_set::MethodAt;
use mvm_table::Table;
use std::sync::ledger::Ledger;

/// The method of an interface that is selected for a receiver, by the class of the receiver.
#[tactic(auto, unfolding(crate::specs::Calls::interface_selected))]
pub fn interface_selected(
    isolate: &Isolate,
    method: &MethodAt,
    receiver: u32,
) -> Result<MethodAt, Stop>
    ensures ok { IfOk result (λ selected. HasMember selected (interface_selected (look_of isolate.now) method.now receiver (named isolate.now))) }
    ensures err { IfErr result (λ stop. Fails Stop.OutOfMemory stop (interface_selected (look_of isolate.now) method.now receiver (named isolate.now))) }
{
    let class = class_of(isolate, receiver)?;
    let found = select_interface(class.get(), method);
    selected_in(class, found)
}

/// A method of an interface that is called is not private.
///
/// # Errors
///
/// An `IncompatibleClassChangeError` where it is.
pub fn not_private(method: &MethodAt) -> Result<(), Stop>
    ensures ok { OnOk result ((member : MemberNameOf) → method_named method.now ≡ Some member → not_private (method.now, member) ≡ Ok (method.now, member)) }
    ensures err { IfErr result (λ stop. (member : MemberNameOf) → method_named method.now ≡ Some member → not_private (method.now, member) ≡ Err stop) }
{
    match method_named(method) {
        Some(member) => {
            if has_flag(PRIVATE, member.flags()) {
                Err(Stop::Throw(Thrown::IncompatibleClassChangeError))
            } else {
                Ok(())
            }
        }
        None => Err(Stop::Throw(Thrown::VerifyError)),
    }
}

/// `invokevirtual`. What may fail comes before anything changes.
///
/// # Errors
///
/// What is thrown for the first fault of the resolution, where no method is selected, or by a native method; a `NullPointerException`, an
/// `IncompatibleClassChangeError`, an `UnsatisfiedLinkError`, a `StackOverflowError`, an `OutOfMemoryError`, or a `VerifyError` for what linked code has
/// not.
#[tactic(auto, unfolding(crate::specs::Calls::invoke_virtual), using(mvm_isolate::proofs::Keeping::grows_same))]
pub fn invoke_virtual<L: Ledger>(
    isolate: &mut Isolate,
    table: &Table,
    stack: &mut Stack,
    told: Told,
    index: u16,
    next: u32,
    steps: &mut Steps<L>,
) -> Result<Left, Stop>
    requires files { table.now.files ≡ isolate.old.files }
    requires frame { IsSome stack.old.rest.below.key }
    requires method { RunsMethod stack.old }
    requires keys { AreKeys isolate.old stack.old }
    requires limits { IsStackOf isolate.old.env.launch.limits stack.old }
    requires thread { told.thread < 64 }
    ensures does { (c : Context) → IsTold c isolate.old told → Leaves result (invoke_virtual c index next (point_of isolate.old stack.old)) isolate.new stack.new }
    ensures grows { Grows isolate.old isolate.new }
    ensures links { isolate.new.env.links ≡ isolate.old.env.links }
    ensures keys { AreKeys isolate.new stack.new }
    ensures limits { IsStackOf isolate.new.env.launch.limits stack.new }
    ensures after { IfOk result (λ left. IsAfter isolate.new left.after) }
    ensures begins { IfOk result (λ left. MayBegin told.threads isolate.new.env.launch.limits.threads left.after) }
    ensures err { OnErr result (named isolate.new ≡ named isolate.old) }
    ensures stack { OnErr result (stack.new ≡ stack.old) }
{
    let method = call_target(isolate, table, stack, false, index, steps)?;
    let received = received_at(isolate, stack, Thrown::VerifyError, &method)?;
    let selected = virtual_selected(isolate, &method, received.receiver)?;
    let caller = Caller { told, next };
    let passed = &received.passes;
    called_at(isolate, table, stack, caller, &selected, passed, steps)
}

/// `invokeinterface`. What may fail comes before anything changes.
///
/// # Errors
///
/// What is thrown for the first fault of the resolution, where no method is selected, or by a native method; a `NullPointerException`, an
/// `IncompatibleClassChangeError`, an `UnsatisfiedLinkError`, a `StackOverflowError`, an `OutOfMemoryError`, or a `VerifyError` for what linked code has
/// not.
#[tactic(auto, unfolding(crate::specs::Calls::invoke_interface), using(mvm_isolate::proofs::Keeping::grows_same))]
pub fn invoke_interface<L: Ledger>(
    isolate: &mut Isolate,
    table: &Table,
    stack: &mut Stack,
    told: Told,
    index: u16,
    next: u32,
    steps: &mut Steps<L>,
) -> Result<Left, Stop>
    requires files { table.now.files ≡ isolate.old.files }
    requires frame { IsSome stack.old.rest.below.key }
    requires method { RunsMethod stack.old }
    requires keys { AreKeys isolate.old stack.old }
    requires limits { IsStackOf isolate.old.env.launch.limits stack.old }
    requires thread { told.thread < 64 }
    ensures does { (c : Context) → IsTold c isolate.old told → Leaves result (invoke_interface c index next (point_of isolate.old stack.old)) isolate.new stack.new }
    ensures grows { Grows isolate.old isolate.new }
    ensures links { isolate.new.env.links ≡ isolate.old.env.links }
    ensures keys { AreKeys isolate.new stack.new }
    ensures limits { IsStackOf isolate.new.env.launch.limits stack.new }
    ensures after { IfOk result (λ left. IsAfter isolate.new left.after) }
    ensures begins { IfOk result (λ left. MayBegin told.threads isolate.new.env.launch.limits.threads left.after) }
    ensures err { OnErr result (named isolate.new ≡ named isolate.old) }
    ensures stack { OnErr result (stack.new ≡ stack.old) }
{
    let method = call_target(isolate, table, stack, false, index, steps)?;
    not_private(&method)?;
    let thrown = Thrown::IncompatibleClassChangeError;
    let received = received_at(isolate, stack, thrown, &method)?;
    let selected = interface_selected(isolate, &method, received.receiver)?;
    let caller = Caller { told, next };
    let passed = &received.passes;
    called_at(isolate, table, stack, caller, &selected, passed, steps)
}
