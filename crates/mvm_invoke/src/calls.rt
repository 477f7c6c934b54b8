//! Calls of methods (JVM Specification 2.6, 2.11.8, 6.5).

ghost use Rattle.std.specs.Prelude.{◌≡◌, ◌<◌, ◌≤◌, length, Some, IsSome, IfOk, OnErr};
ghost use Rattle.mvm_builtin.specs.Natives.{native_method};
ghost use Rattle.mvm_member.specs.Members.{method_named, MemberName as MemberNameOf};
ghost use Rattle.mvm_isolate.specs.Numbered.{name_at, named, IsClass};
ghost use Rattle.mvm_isolate.specs.Sound.{Grows};
ghost use Rattle.mvm_current.specs.Keys.{AreKeys, IsStackOf, RunsMethod};
ghost use Rattle.mvm_object.specs.Coming.{point_of};
ghost use Rattle.mvm_object.specs.Going.{Context};
ghost use Rattle.mvm_invoke.specs.Calls.{called, native_or_none};
ghost use Rattle.mvm_invoke.specs.Leaving.{IsAfter, IsTold, Leaves, MayBegin};

use crate::answers::native_done;
use crate::caller::Caller;
use crate::frames::{Entry, entered_frame};
use crate::heads::{Head, head_in, thrown_without_code};
use crate::left::Left;
use crate::native::{must_suit, result_fits};
use crate::passed::Passed;
use mvm_base::Steps;
use mvm_builtin::native_method;
use mvm_current::key_of;
use mvm_frame::Stack;
use mvm_isolate::{Isolate, Stop};
use mvm_layout::flags::is_static;
use mvm_member::{MemberName, method_named};
use mvm_native::Thrown;
use mvm_set::MethodAt;
use mvm_table::Table;
use std::sync::ledger::Ledger;

/// A method without code is called, if it is one of the machine's own: it is done at once, where its result fits and its arguments suit it.
#[tactic(auto, unfolding(crate::specs::NativeCalls::native_call))]
fn native_or_none<L: Ledger>(
    isolate: &mut Isolate,
    table: &Table,
    stack: &mut Stack,
    caller: Caller,
    member: &MemberName<'_>,
    head: Head,
    passed: &Passed,
    steps: &mut Steps<L>,
) -> Result<Left, Stop>
    requires files { table.now.files ≡ isolate.old.files }
    requires frame { IsSome stack.old.rest.below.key }
    requires method { RunsMethod stack.old }
    requires keys { AreKeys isolate.old stack.old }
    requires slots { passed.now.slots ≤ length stack.old.operands.slots }
    ensures does { (c : Context) → IsTold c isolate.old caller.told → Leaves result (native_or_none c member.now head passed.now caller.next (point_of isolate.old stack.old) (native_method member.now.class member.now.name member.now.desc)) isolate.new stack.new }
    ensures below { stack.new.rest.below ≡ stack.old.rest.below }
    ensures grows { Grows isolate.old isolate.new }
    ensures links { isolate.new.env.links ≡ isolate.old.env.links }
    ensures after { IfOk result (λ left. IsAfter isolate.new left.after) }
    ensures begins { IfOk result (λ left. MayBegin caller.told.threads isolate.new.env.launch.limits.threads left.after) }
    ensures err { OnErr result (named isolate.new ≡ named isolate.old) }
    ensures stack { OnErr result (stack.new ≡ stack.old) }
{
    match native_method(member.class(), member.name(), member.desc()) {
        Some(native) => {
            result_fits(stack, passed)?;
            let is_static = is_static(head.flags);
            must_suit(isolate, table, is_static, member.class(), passed, steps)?;
            native_done(isolate, stack, caller, native, passed)
        }
        None => Err(Stop::Throw(thrown_without_code(head.flags))),
    }
}

/// A method that the class of a number declares is called.
#[tactic(auto, unfolding(crate::specs::Calls::called, crate::specs::Calls::head_in), using(crate::proofs::Telling::keys_below, crate::proofs::Telling::limits_below))]
fn called_in<L: Ledger>(
    isolate: &mut Isolate,
    table: &Table,
    stack: &mut Stack,
    caller: Caller,
    mirror: u32,
    member: &MemberName<'_>,
    passed: &Passed,
    steps: &mut Steps<L>,
) -> Result<Left, Stop>
    requires files { table.now.files ≡ isolate.old.files }
    requires frame { IsSome stack.old.rest.below.key }
    requires method { RunsMethod stack.old }
    requires keys { AreKeys isolate.old stack.old }
    requires limits { IsStackOf isolate.old.env.launch.limits stack.old }
    requires thread { caller.told.thread < 64 }
    requires class { IsClass isolate.old mirror }
    requires name { name_at isolate.old mirror ≡ member.now.class }
    requires slots { passed.now.slots ≤ length stack.old.operands.slots }
    ensures does { (c : Context) → IsTold c isolate.old caller.told → Leaves result (called c member.now passed.now caller.next (point_of isolate.old stack.old)) isolate.new stack.new }
    ensures grows { Grows isolate.old isolate.new }
    ensures links { isolate.new.env.links ≡ isolate.old.env.links }
    ensures keys { AreKeys isolate.new stack.new }
    ensures limits { IsStackOf isolate.new.env.launch.limits stack.new }
    ensures after { IfOk result (λ left. IsAfter isolate.new left.after) }
    ensures begins { IfOk result (λ left. MayBegin caller.told.threads isolate.new.env.launch.limits.threads left.after) }
    ensures err { OnErr result (named isolate.new ≡ named isolate.old) }
    ensures stack { OnErr result (stack.new ≡ stack.old) }
{
    let head = head_in(isolate, mirror, member)?;
    match head.size {
        Some(size) => match key_of(isolate, mirror, member.name(), member.desc(), None) {
            Some(key) => {
                let flags = head.flags;
                let entry = Entry { key, flags, size };
                entered_frame(isolate, stack, caller.told, entry, member, passed)
            }
            None => Err(Stop::Throw(Thrown::VerifyError)),
        },
        None => native_or_none(isolate, table, stack, caller, member, head, passed, steps),
    }
}

/// The method is called: one with code gets a frame, a native one is done at once.
#[tactic(auto, using(crate::proofs::Telling::told_grows, crate::proofs::Telling::limits_grow, mvm_current::proofs::Growth::keys_grow, mvm_isolate::proofs::Keeping::grows_then, mvm_isolate::proofs::Keeping::grows_same))]
pub(crate) fn called<L: Ledger>(
    isolate: &mut Isolate,
    table: &Table,
    stack: &mut Stack,
    caller: Caller,
    member: &MemberName<'_>,
    passed: &Passed,
    steps: &mut Steps<L>,
) -> Result<Left, Stop>
    requires files { table.now.files ≡ isolate.old.files }
    requires frame { IsSome stack.old.rest.below.key }
    requires method { RunsMethod stack.old }
    requires keys { AreKeys isolate.old stack.old }
    requires limits { IsStackOf isolate.old.env.launch.limits stack.old }
    requires thread { caller.told.thread < 64 }
    requires slots { passed.now.slots ≤ length stack.old.operands.slots }
    ensures does { (c : Context) → IsTold c isolate.old caller.told → Leaves result (called c member.now passed.now caller.next (point_of isolate.old stack.old)) isolate.new stack.new }
    ensures grows { Grows isolate.old isolate.new }
    ensures links { isolate.new.env.links ≡ isolate.old.env.links }
    ensures keys { AreKeys isolate.new stack.new }
    ensures limits { IsStackOf isolate.new.env.launch.limits stack.new }
    ensures after { IfOk result (λ left. IsAfter isolate.new left.after) }
    ensures begins { IfOk result (λ left. MayBegin caller.told.threads isolate.new.env.launch.limits.threads left.after) }
    ensures err { OnErr result (named isolate.new ≡ named isolate.old) }
    ensures stack { OnErr result (stack.new ≡ stack.old) }
{
    match isolate.load(table, member.class(), steps) {
        Ok(mirror) => called_in(isolate, table, stack, caller, mirror, member, passed, steps),
        Err(stop) => Err(stop),
    }
}

/// The same of a method that was found.
pub fn called_at<L: Ledger>(
    isolate: &mut Isolate,
    table: &Table,
    stack: &mut Stack,
    caller: Caller,
    method: &MethodAt,
    passed: &Passed,
    steps: &mut Steps<L>,
) -> Result<Left, Stop>
    requires files { table.now.files ≡ isolate.old.files }
    requires frame { IsSome stack.old.rest.below.key }
    requires method { RunsMethod stack.old }
    requires keys { AreKeys isolate.old stack.old }
    requires limits { IsStackOf isolate.old.env.launch.limits stack.old }
    requires thread { caller.told.thread < 64 }
    requires slots { passed.now.slots ≤ length stack.old.operands.slots }
    requires named { IsSome (method_named method.now) }
    ensures does { (c : Context) (member : MemberNameOf) → IsTold c isolate.old caller.told → method_named method.now ≡ Some member → Leaves result (called c member passed.now caller.next (point_of isolate.old stack.old)) isolate.new stack.new }
    ensures grows { Grows isolate.old isolate.new }
    ensures links { isolate.new.env.links ≡ isolate.old.env.links }
    ensures keys { AreKeys isolate.new stack.new }
    ensures limits { IsStackOf isolate.new.env.launch.limits stack.new }
    ensures after { IfOk result (λ left. IsAfter isolate.new left.after) }
    ensures begins { IfOk result (λ left. MayBegin caller.told.threads isolate.new.env.launch.limits.threads left.after) }
    ensures err { OnErr result (named isolate.new ≡ named isolate.old) }
    ensures stack { OnErr result (stack.new ≡ stack.old) }
{
    match method_named(method) {
        Some(member) => called(isolate, table, stack, caller, &member, passed, steps),
        None => unreachable!(),
    }
}
