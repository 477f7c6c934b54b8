//! Calls of static methods (JVM Specification 6.5: invokestatic).

ghost use Rattle.std.specs.Prelude.{◌≡◌, ◌<◌, IsSome, IfOk, OnErr};
ghost use Rattle.mvm_isolate.specs.Numbered.{named};
ghost use Rattle.mvm_isolate.specs.Sound.{Grows};
ghost use Rattle.mvm_current.specs.Keys.{AreKeys, IsStackOf, RunsMethod};
ghost use Rattle.mvm_object.specs.Coming.{point_of};
ghost use Rattle.mvm_object.specs.Entries.{once_initialised};
ghost use Rattle.mvm_object.specs.Going.{Context};
ghost use Rattle.mvm_invoke.specs.Calls.{invoke_static, static_called};
ghost use Rattle.mvm_invoke.specs.Leaving.{IsAfter, IsTold, Leaves, MayBegin};

use crate::caller::{Caller, left};
use crate::calls::called;
use crate::left::{After, Left, Told};
use crate::passed::passed_by;
use crate::targets::call_target;
use mvm_base::Steps;
use mvm_frame::Stack;
use mvm_isolate::{Isolate, Stop};
use mvm_member::{MemberName, method_named};
use mvm_object::{Once, once_initialised};
use mvm_table::Table;
use std::sync::ledger::Ledger;

/// `invokestatic`, where the class of its method is initialised.
#[tactic(auto, unfolding(crate::specs::Calls::static_called), using(mvm_isolate::proofs::Keeping::grows_same))]
fn called_static<L: Ledger>(
    isolate: &mut Isolate,
    table: &Table,
    stack: &mut Stack,
    caller: Caller,
    member: &MemberName<'_>,
    steps: &mut Steps<L>,
) -> Result<Left, Stop>
    requires files { table.now.files ≡ isolate.old.files }
    requires frame { IsSome stack.old.rest.below.key }
    requires method { RunsMethod stack.old }
    requires keys { AreKeys isolate.old stack.old }
    requires limits { IsStackOf isolate.old.env.launch.limits stack.old }
    requires thread { caller.told.thread < 64 }
    ensures does { (c : Context) → IsTold c isolate.old caller.told → Leaves result (static_called c member.now caller.next (point_of isolate.old stack.old)) isolate.new stack.new }
    ensures grows { Grows isolate.old isolate.new }
    ensures links { isolate.new.env.links ≡ isolate.old.env.links }
    ensures keys { AreKeys isolate.new stack.new }
    ensures limits { IsStackOf isolate.new.env.launch.limits stack.new }
    ensures after { IfOk result (λ left. IsAfter isolate.new left.after) }
    ensures begins { IfOk result (λ left. MayBegin caller.told.threads isolate.new.env.launch.limits.threads left.after) }
    ensures err { OnErr result (named isolate.new ≡ named isolate.old) }
    ensures stack { OnErr result (stack.new ≡ stack.old) }
{
    let passed = passed_by(isolate.alloc(), stack, true, member.desc())?;
    called(isolate, table, stack, caller, member, &passed, steps)
}

/// The class of a static method is initialised, and then the method is called.
#[tactic(auto, using(crate::proofs::Telling::told_grows, crate::proofs::Telling::told_for, mvm_isolate::proofs::Keeping::grows_then, mvm_isolate::proofs::Keeping::grows_same))]
pub fn call_static<L: Ledger>(
    isolate: &mut Isolate,
    table: &Table,
    stack: &mut Stack,
    caller: Caller,
    member: &MemberName<'_>,
    steps: &mut Steps<L>,
) -> Result<Left, Stop>
    requires files { table.now.files ≡ isolate.old.files }
    requires frame { IsSome stack.old.rest.below.key }
    requires method { RunsMethod stack.old }
    requires keys { AreKeys isolate.old stack.old }
    requires limits { IsStackOf isolate.old.env.launch.limits stack.old }
    requires thread { caller.told.thread < 64 }
    ensures does { (c : Context) → IsTold c isolate.old caller.told → Leaves result (once_initialised c member.now.class (point_of isolate.old stack.old) (static_called c member.now caller.next)) isolate.new stack.new }
    ensures grows { Grows isolate.old isolate.new }
    ensures links { isolate.new.env.links ≡ isolate.old.env.links }
    ensures keys { AreKeys isolate.new stack.new }
    ensures limits { IsStackOf isolate.new.env.launch.limits stack.new }
    ensures after { IfOk result (λ left. IsAfter isolate.new left.after) }
    ensures begins { IfOk result (λ left. MayBegin caller.told.threads isolate.new.env.launch.limits.threads left.after) }
    ensures err { OnErr result (named isolate.new ≡ named isolate.old) }
    ensures stack { OnErr result (stack.new ≡ stack.old) }
{
    let thread = caller.told.thread;
    let once = once_initialised(isolate, table, stack, thread, member.class(), steps)?;
    match once {
        Once::Goes(_) => called_static(isolate, table, stack, caller, member, steps),
        Once::Ends(state) => Ok(left(caller.told, After::Does(state))),
    }
}

/// `invokestatic`. What may fail comes before anything changes.
///
/// # Errors
///
/// What is thrown for the first fault of the resolution, what the initialisation of the class throws, what a native method throws; an
/// `UnsatisfiedLinkError`, an `IncompatibleClassChangeError`, a `StackOverflowError`, an `OutOfMemoryError`, or a `VerifyError` for what linked code has
/// not.
#[tactic(auto, unfolding(crate::specs::Calls::invoke_static), using(mvm_isolate::proofs::Keeping::grows_same))]
pub fn invoke_static<L: Ledger>(
    isolate: &mut Isolate,
    table: &Table,
    stack: &mut Stack,
    told: Told,
    index: u16,
    next: u32,
    steps: &mut Steps<L>,
) -> Result<Left, Stop>
    requires files { table.now.files ≡ isolate.old.files }
    requires frame { IsSome stack.old.rest.below.key }
    requires method { RunsMethod stack.old }
    requires keys { AreKeys isolate.old stack.old }
    requires limits { IsStackOf isolate.old.env.launch.limits stack.old }
    requires thread { told.thread < 64 }
    ensures does { (c : Context) → IsTold c isolate.old told → Leaves result (invoke_static c index next (point_of isolate.old stack.old)) isolate.new stack.new }
    ensures grows { Grows isolate.old isolate.new }
    ensures links { isolate.new.env.links ≡ isolate.old.env.links }
    ensures keys { AreKeys isolate.new stack.new }
    ensures limits { IsStackOf isolate.new.env.launch.limits stack.new }
    ensures after { IfOk result (λ left. IsAfter isolate.new left.after) }
    ensures begins { IfOk result (λ left. MayBegin told.threads isolate.new.env.launch.limits.threads left.after) }
    ensures err { OnErr result (named isolate.new ≡ named isolate.old) }
    ensures stack { OnErr result (stack.new ≡ stack.old) }
{
    let method = call_target(isolate, table, stack, true, index, steps)?;
    match method_named(&method) {
        Some(member) => {
            let caller = Caller { told, next };
            call_static(isolate, table, stack, caller, &member, steps)
        }
        None => unreachable!(),
    }
}
