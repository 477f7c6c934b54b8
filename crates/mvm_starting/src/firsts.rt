//! The first frame of a thread, which takes the place of that of its start (JVM Specification 2.6, 5.2).

ghost use Rattle.std.specs.Prelude.{◌≡◌, ◌<◌, ◌∷◌, length, slice_get, slice_set, max, true, Ok, Err, Some, IfErr, IfOk, IsSome};
ghost use Rattle.mvm_base.specs.Answers.{Fails};
ghost use Rattle.mvm_frame.specs.Calls.{unset_frame};
ghost use Rattle.mvm_frame.specs.Parts.{stack_with};
ghost use Rattle.mvm_history.specs.declared.limits.Limits.{Limits as LimitsOf};
ghost use Rattle.mvm_isolate.specs.Numbered.{look_of, name_at, named, Numbered, IsClass};
ghost use Rattle.mvm_isolate.specs.Sound.{Grows};
ghost use Rattle.mvm_member.specs.Members.{MemberName as MemberNameOf};
ghost use Rattle.mvm_current.specs.Frames.{has_room};
ghost use Rattle.mvm_current.specs.Keys.{callers_named, AreKeys, IsStackOf};
ghost use Rattle.mvm_object.specs.Coming.{point_of};
ghost use Rattle.mvm_object.specs.Going.{Context};
ghost use Rattle.mvm_object.specs.declared.state.ThreadState.TheVariants.{Ready};
ghost use Rattle.mvm_starting.specs.Firsts.{has_place, IsFirst};
ghost use Rattle.mvm_starting.specs.Left.{left_named};
ghost use Rattle.mvm_starting.specs.Starting.{head_by, head_in, started};

use mvm_base::{Steps, Word};
use mvm_classfile::Member;
use mvm_current::key_of;
use mvm_frame::{FrameKey, Slot, Stack};
use mvm_invoke::without_code;
use mvm_isolate::{Isolate, Stop};
use mvm_member::{MemberName, method_declared};
use mvm_native::Thrown;
use mvm_table::Table;
use std::sync::ledger::Ledger;

/// What a start looks at of a method that has code.
#[derive(Clone, Copy, Debug, PartialEq, Eq)]
pub(crate) struct Head {
    /// Its access flags.
    pub(crate) flags: u16,
    /// How many local variables its code has.
    pub(crate) locals: u16,
    /// How deep the operand stack of its code is.
    pub(crate) depth: u16,
}

/// A method with code, as a start enters it.
#[derive(Clone, Copy, Debug, PartialEq, Eq)]
pub(crate) struct First {
    /// The key of a frame of it, without a monitor.
    pub(crate) key: FrameKey,
    /// What the start looks at.
    pub(crate) head: Head,
}

/// What a start looks at of a method.
fn head_of(method: &Member) -> Result<Head, Stop>
    ensures { result ≡ head_by method.now method.now.code }
{
    match &method.code {
        Some(code) => Ok(Head {
            flags: method.flags,
            locals: code.max_locals,
            depth: code.max_stack,
        }),
        None => Err(Stop::Throw(without_code(method))),
    }
}

/// The same of a method that the class of a number declares.
#[tactic(auto, unfolding(crate::specs::Starting::head_in, mvm_isolate::specs::Members::method_in))]
fn head_in(isolate: &Isolate, mirror: u32, member: &MemberName<'_>) -> Result<Head, Stop>
    requires class { IsClass isolate.now mirror }
    requires name { name_at isolate.now mirror ≡ member.now.class }
    ensures { result ≡ head_in (look_of isolate.now) member.now }
{
    match method_declared(isolate.class(mirror).get(), member.name(), member.desc()) {
        Some(method) => head_of(method),
        None => Err(Stop::Throw(Thrown::VerifyError)),
    }
}

/// The same, with the key of its frame.
fn first_in(isolate: &Isolate, mirror: u32, member: &MemberName<'_>) -> Result<First, Stop>
    requires class { IsClass isolate.now mirror }
    requires name { name_at isolate.now mirror ≡ member.now.class }
    ensures ok { IfOk result (λ first. head_in (look_of isolate.now) member.now ≡ Ok first.head) }
    ensures err { IfErr result (λ stop. head_in (look_of isolate.now) member.now ≡ Err stop) }
    ensures first { IfOk result (λ first. IsFirst isolate.now member.now first) }
{
    let head = head_in(isolate, mirror, member)?;
    match key_of(isolate, mirror, member.name(), member.desc(), None) {
        Some(key) => Ok(First { key, head }),
        None => Err(Stop::Throw(Thrown::VerifyError)),
    }
}

/// A method with code, as a start enters it; the class that declares it is loaded, unless the isolate met it.
///
/// # Errors
///
/// What is thrown for the first fault of the load, and for a method without code; a `VerifyError` where the class declares no such method.
pub(crate) fn first_of<L: Ledger>(
    isolate: &mut Isolate,
    table: &Table,
    member: &MemberName<'_>,
    steps: &mut Steps<L>,
) -> Result<First, Stop>
    requires files { table.now.files ≡ isolate.old.files }
    ensures ok { IfOk result (λ first. head_in (look_of isolate.old) member.now ≡ Ok first.head) }
    ensures err { IfErr result (λ stop. Fails Stop.OutOfMemory stop (head_in (look_of isolate.old) member.now)) }
    ensures first { IfOk result (λ first. IsFirst isolate.new member.now first) }
    // By names nothing changes.
    ensures same { named isolate.new ≡ named isolate.old }
    ensures links { isolate.new.env.links ≡ isolate.old.env.links }
    ensures grows { Grows isolate.old isolate.new }
{
    match isolate.load(table, member.class(), steps) {
        Ok(mirror) => first_in(isolate, mirror, member),
        Err(stop) => Err(stop),
    }
}

/// Whether the first frame of a method fits where the frame of the start is left (JVM Specification 2.5.2).
pub(crate) fn first_room(stack: &Stack, head: Head) -> bool
    requires frame { IsSome stack.now.rest.below.key }
    ensures is { (n : Numbered) (limits : LimitsOf) → IsStackOf limits stack.now → result ≡ has_room limits (max head.locals 1) head.depth (callers_named n stack.now) }
    ensures fits { result ≡ has_place head stack.now }
{
    stack.fits_instead(head.locals.max(1), head.depth)
}

/// The current frame, that of the start, is left, and a frame of the method takes its place. There is room for it.
fn enter_first(stack: &mut Stack, key: FrameKey, head: Head)
    requires frame { IsSome stack.old.rest.below.key }
    requires room { has_place head stack.old ≡ true }
    ensures { stack.new ≡ stack_with (unset_frame key (max head.locals 1) head.depth ∷ stack.old.rest.below.callers) stack.old.rest.below.most stack.old.rest.below.words }
{
    match stack.leave() {
        Some(_) => match stack.enter(key, head.locals.max(1), head.depth) {
            Ok(()) => {}
            Err(_) => unreachable!(),
        },
        None => unreachable!(),
    }
}

/// The local variable 0 of the current frame, whose local variables are unset, is an object.
fn set_argument(stack: &mut Stack, object: u32)
    requires frame { IsSome stack.old.rest.below.key }
    requires locals { 0 < length stack.old.rest.locals }
    requires unset { slice_get stack.old.rest.locals 0 ≡ Some Slot.Unset }
    ensures operands { stack.new.operands ≡ stack.old.operands }
    ensures rest { stack.new.rest ≡ record stack.old.rest { locals = slice_set stack.old.rest.locals 0 (Slot.Ref object) } }
{
    match stack.store(0, Word::Ref(object)) {
        Ok(()) => {}
        Err(_) => unreachable!(),
    }
}

/// The frame of a method takes the place of that of the start, with an object as its argument, where there is room for it.
pub(crate) fn started(stack: &mut Stack, first: First, lock: Option<u32>, object: u32)
    requires frame { IsSome stack.old.rest.below.key }
    requires room { has_place first.head stack.old ≡ true }
    ensures does { (c : Context) (n : Numbered) (m : MemberNameOf) → IsFirst n m first → started c m lock first.head object (point_of n stack.old) ≡ left_named n stack.new c.object Ready }
    ensures keys { (n : Numbered) (m : MemberNameOf) → IsFirst n m first → AreKeys n stack.old → AreKeys n stack.new }
    ensures limits { (limits : LimitsOf) → IsStackOf limits stack.old → IsStackOf limits stack.new }
{
    let key = FrameKey {
        mirror: first.key.mirror,
        method: first.key.method,
        lock,
    };
    enter_first(stack, key, first.head);
    set_argument(stack, object);
}
