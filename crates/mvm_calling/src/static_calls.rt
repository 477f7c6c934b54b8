//! Calls of static methods (JVM Specification 6.5: invokestatic).

ghost use Rattle.std.specs.Prelude.{◌≡◌, ◌<◌, ℕ, Some, IsSome, IfOk, IfSome, OnErr};
ghost use Rattle.mvm_frame.specs.declared.key.FrameKey.{FrameKey as FrameKeyOf};
ghost use Rattle.mvm_isolate.specs.Numbered.{name_at, named, IsClass};
ghost use Rattle.mvm_isolate.specs.Sound.{Grows};
ghost use Rattle.mvm_mirror.specs.declared.state.InitState.TheVariants.{Initialised};
ghost use Rattle.mvm_current.specs.Keys.{AreKeys, IsStackOf, RunsMethod};
ghost use Rattle.mvm_object.specs.Coming.{point_of};
ghost use Rattle.mvm_object.specs.Going.{Context};
ghost use Rattle.mvm_invoke.specs.Calls.{invoke_static};
ghost use Rattle.mvm_invoke.specs.Leaving.{IsAfter, IsTold, Leaves, MayBegin};
ghost use Rattle.mvm_calling.specs.KeptCalls.{AreCalls, IsStaticCall, IsTarget};

use crate::calls::Calls;
use crate::entering::known_called;
use crate::keeping::keep_static;
use crate::static_call::StaticCall;
use mvm_base::Steps;
use mvm_frame::Stack;
use mvm_invoke::{Caller, Left, Told, call_static, call_target};
use mvm_isolate::{Isolate, Stop};
use mvm_member::{MemberName, method_named};
use mvm_mirror::InitState;
use mvm_table::Table;
use std::sync::ledger::Ledger;

/// The call that an index of the constant pool of the current frame's class names, if it is kept and its class is initialised.
fn ready_call<'a>(
    isolate: &Isolate,
    stack: &Stack,
    calls: &'a Calls,
    index: u16,
) -> Option<&'a StaticCall>
    requires calls { AreCalls isolate.now calls.now }
    ensures kept { IfSome result (λ call. IsStaticCall isolate.now call.now) }
    ensures home { IfSome result (λ call. (key : FrameKeyOf) → stack.now.rest.below.key ≡ Some key → key.mirror ≡ call.now.home) }
    ensures index { IfSome result (λ call. call.now.index ≡ index) }
    ensures ready { IfSome result (λ call. (named isolate.now).classes.states (name_at isolate.now call.now.key.mirror) ≡ Initialised) }
{
    match stack.top() {
        Some(key) => match calls.static_call(key.mirror, index) {
            Some(call) => {
                if isolate.state(call.key.mirror) == InitState::Initialised {
                    Some(call)
                } else {
                    None
                }
            }
            None => None,
        },
        None => None,
    }
}

/// `invokestatic` of a method that is known, whose class is initialised.
#[tactic(auto)]
fn invoke_known(
    isolate: &Isolate,
    stack: &mut Stack,
    told: Told,
    call: &StaticCall,
) -> Result<Left, Stop>
    requires frame { IsSome stack.old.rest.below.key }
    requires method { RunsMethod stack.old }
    requires keys { AreKeys isolate.now stack.old }
    requires limits { IsStackOf isolate.now.env.launch.limits stack.old }
    requires call { IsStaticCall isolate.now call.now }
    requires home { (key : FrameKeyOf) → stack.old.rest.below.key ≡ Some key → key.mirror ≡ call.now.home }
    requires ready { (named isolate.now).classes.states (name_at isolate.now call.now.key.mirror) ≡ Initialised }
    ensures does { (c : Context) (next : ℕ) → IsTold c isolate.now told → Leaves result (invoke_static c call.now.index next (point_of isolate.now stack.old)) isolate.now stack.new }
    ensures keys { AreKeys isolate.now stack.new }
    ensures limits { IsStackOf isolate.now.env.launch.limits stack.new }
    ensures after { IfOk result (λ left. IsAfter isolate.now left.after) }
    ensures begins { IfOk result (λ left. MayBegin told.threads isolate.now.env.launch.limits.threads left.after) }
    ensures stack { OnErr result (stack.new ≡ stack.old) }
{
    let _class = isolate.class(call.key.mirror);
    match stack.top() {
        Some(_) => known_called(isolate, stack, told, call),
        None => unreachable!(),
    }
}

/// Keeps what is looked up of the calls of the method that an index of the constant pool of the current frame's class names, if it is not kept.
#[tactic(auto, using(mvm_isolate::proofs::Keeping::grows_same))]
fn keep_once<L: Ledger>(
    isolate: &mut Isolate,
    table: &Table,
    stack: &Stack,
    calls: &mut Calls,
    index: u16,
    member: &MemberName<'_>,
    steps: &mut Steps<L>,
)
    requires files { table.now.files ≡ isolate.old.files }
    requires keys { AreKeys isolate.old stack.now }
    requires calls { AreCalls isolate.old calls.old }
    requires target { (key : FrameKeyOf) → stack.now.rest.below.key ≡ Some key → IsTarget isolate.old key.mirror index member.now }
    ensures calls { AreCalls isolate.new calls.new }
    // By names nothing changes.
    ensures same { named isolate.new ≡ named isolate.old }
    ensures links { isolate.new.env.links ≡ isolate.old.env.links }
    ensures grows { Grows isolate.old isolate.new }
{
    match stack.top() {
        Some(key) => {
            if calls.static_call(key.mirror, index).is_none() {
                keep_static(isolate, table, calls, key.mirror, index, member, steps);
            }
        }
        None => {}
    }
}

/// `invokestatic` of a method that is looked up by names, and kept.
#[tactic(auto, unfolding(mvm_invoke::specs::Calls::invoke_static), using(mvm_invoke::proofs::Telling::told_grows, mvm_invoke::proofs::Telling::limits_grow, mvm_isolate::proofs::Keeping::grows_same))]
fn invoke_anew<L: Ledger>(
    isolate: &mut Isolate,
    table: &Table,
    stack: &mut Stack,
    calls: &mut Calls,
    caller: Caller,
    index: u16,
    steps: &mut Steps<L>,
) -> Result<Left, Stop>
    requires files { table.now.files ≡ isolate.old.files }
    requires frame { IsSome stack.old.rest.below.key }
    requires method { RunsMethod stack.old }
    requires keys { AreKeys isolate.old stack.old }
    requires limits { IsStackOf isolate.old.env.launch.limits stack.old }
    requires thread { caller.told.thread < 64 }
    requires calls { AreCalls isolate.old calls.old }
    ensures does { (c : Context) → IsTold c isolate.old caller.told → Leaves result (invoke_static c index caller.next (point_of isolate.old stack.old)) isolate.new stack.new }
    ensures grows { Grows isolate.old isolate.new }
    ensures links { isolate.new.env.links ≡ isolate.old.env.links }
    ensures keys { AreKeys isolate.new stack.new }
    ensures limits { IsStackOf isolate.new.env.launch.limits stack.new }
    ensures after { IfOk result (λ left. IsAfter isolate.new left.after) }
    ensures begins { IfOk result (λ left. MayBegin caller.told.threads isolate.new.env.launch.limits.threads left.after) }
    ensures calls { AreCalls isolate.new calls.new }
    ensures err { OnErr result (named isolate.new ≡ named isolate.old) }
    ensures stack { OnErr result (stack.new ≡ stack.old) }
{
    let method = call_target(isolate, table, stack, true, index, steps)?;
    match method_named(&method) {
        Some(member) => {
            keep_once(isolate, table, stack, calls, index, &member, steps);
            call_static(isolate, table, stack, caller, &member, steps)
        }
        None => unreachable!(),
    }
}

/// `invokestatic`. What may fail comes before anything changes.
///
/// # Errors
///
/// What is thrown for the first fault of the resolution, what the initialisation of the class throws, what a native method throws; an
/// `UnsatisfiedLinkError`, an `IncompatibleClassChangeError`, a `StackOverflowError`, an `OutOfMemoryError`, or a `VerifyError` for what linked code has
/// not.
#[tactic(auto, using(mvm_isolate::proofs::Keeping::grows_same))]
pub fn invoke_static<L: Ledger>(
    isolate: &mut Isolate,
    table: &Table,
    stack: &mut Stack,
    calls: &mut Calls,
    told: Told,
    index: u16,
    next: u32,
    steps: &mut Steps<L>,
) -> Result<Left, Stop>
    requires files { table.now.files ≡ isolate.old.files }
    requires frame { IsSome stack.old.rest.below.key }
    requires method { RunsMethod stack.old }
    requires keys { AreKeys isolate.old stack.old }
    requires limits { IsStackOf isolate.old.env.launch.limits stack.old }
    requires thread { told.thread < 64 }
    requires calls { AreCalls isolate.old calls.old }
    ensures does { (c : Context) → IsTold c isolate.old told → Leaves result (invoke_static c index next (point_of isolate.old stack.old)) isolate.new stack.new }
    ensures grows { Grows isolate.old isolate.new }
    ensures links { isolate.new.env.links ≡ isolate.old.env.links }
    ensures keys { AreKeys isolate.new stack.new }
    ensures limits { IsStackOf isolate.new.env.launch.limits stack.new }
    ensures after { IfOk result (λ left. IsAfter isolate.new left.after) }
    ensures begins { IfOk result (λ left. MayBegin told.threads isolate.new.env.launch.limits.threads left.after) }
    ensures calls { AreCalls isolate.new calls.new }
    ensures err { OnErr result (named isolate.new ≡ named isolate.old) }
    ensures stack { OnErr result (stack.new ≡ stack.old) }
{
    match ready_call(isolate, stack, calls, index) {
        Some(call) => invoke_known(isolate, stack, told, call),
        None => {
            let caller = Caller { told, next };
            invoke_anew(isolate, table, stack, calls, caller, index, steps)
        }
    }
}
