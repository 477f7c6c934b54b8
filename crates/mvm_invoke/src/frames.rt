//! The frame of a method that is called (JVM Specification 2.6, 2.11.10).

ghost use Rattle.std.specs.Prelude.{◌≡◌, ◌≢◌, ◌<◌, ◌≤◌, ℕ, length, max, true, None, Some, IsSome, IfOk, OnErr};
ghost use Rattle.mvm_base.specs.Answers.{GivesUnless};
ghost use Rattle.mvm_frame.specs.Calls.{fits};
ghost use Rattle.mvm_history.specs.declared.limits.Limits.{Limits as LimitsOf};
ghost use Rattle.mvm_initialise.specs.Locks.{known_locked};
ghost use Rattle.mvm_member.specs.Members.{MemberName as MemberNameOf};
ghost use Rattle.mvm_isolate.specs.Numbered.{name_at, named, Numbered, IsClass};
ghost use Rattle.mvm_isolate.specs.Sound.{Grows};
ghost use Rattle.mvm_isolate.specs.declared.stop.Stop.TheVariants as stop;
ghost use Rattle.mvm_current.specs.Frames.{method};
ghost use Rattle.mvm_current.specs.Keys.{runs_of, AreKeys, IsKey, IsStackOf};
ghost use Rattle.mvm_object.specs.Coming.{point_of};
ghost use Rattle.mvm_object.specs.Going.{Context};
ghost use Rattle.mvm_invoke.specs.Calls.{entered_frame, framed, lock_of, locked_frame};
ghost use Rattle.mvm_invoke.specs.Leaving.{left_named, IsAfter, IsTold, Leaves, MayBegin};

use crate::caller::left;
use crate::heads::Size;
use crate::left::{After, Left, Told};
use crate::passed::Passed;
use mvm_base::Word;
use mvm_current::{NO_METHOD, enter_method, frames_law, receiver_in, room};
use mvm_frame::{FrameKey, Stack};
use mvm_initialise::{Lock, locked_class, monitor_entered};
use mvm_isolate::{Isolate, Stop};
use mvm_layout::flags::{SYNCHRONIZED, has_flag, is_static};
use mvm_member::MemberName;
use mvm_native::Thrown;
use mvm_object::ThreadState;

/// A method with code, as its call enters it.
#[derive(Clone, Copy, Debug, PartialEq, Eq)]
pub(crate) struct Entry {
    /// The key of a frame of it, without a monitor.
    pub(crate) key: FrameKey,
    /// Its access flags.
    pub(crate) flags: u16,
    /// What its code has.
    pub(crate) size: Size,
}

/// How many local variables a frame has: as many as its arguments take at least.
fn wider(locals: u16, slots: u16) -> u16
    ensures { result ≡ max locals slots }
{
    locals.max(slots)
}

/// The frame of a method with code stands on the caller, with its arguments. There is room for it.
pub fn framed(stack: &mut Stack, told: Told, key: FrameKey, size: Size, slots: u16) -> Left
    requires frame { IsSome stack.old.rest.below.key }
    requires method { key.method ≢ NO_METHOD }
    requires slots { slots ≤ length stack.old.operands.slots }
    requires room { fits (max size.locals slots) size.depth stack.old ≡ true }
    ensures does { (c : Context) (n : Numbered) (member : MemberNameOf) → c.object ≡ told.object → IsStackOf n.env.launch.limits stack.old → runs_of n key 0 ≡ method member.class member.name member.desc → framed c member size key.lock slots (point_of n stack.old) ≡ left_named n stack.new result }
    ensures keys { (n : Numbered) → IsKey n key → AreKeys n stack.old → AreKeys n stack.new }
    ensures limits { (limits : LimitsOf) → IsStackOf limits stack.old → IsStackOf limits stack.new }
    ensures after { (n : Numbered) → IsAfter n result.after }
    ensures begins { (threads most : ℕ) → MayBegin threads most result.after }
{
    match enter_method(stack, key, size.locals, size.depth, slots) {
        Ok(()) => left(told, After::Does(ThreadState::Ready)),
        Err(_) => unreachable!(),
    }
}

/// The monitor of the receiver of a synchronized method, which the thread enters where no other one owns it.
#[tactic(auto, unfolding(mvm_initialise::specs::Locks::known_locked))]
fn locked_receiver(isolate: &mut Isolate, thread: u32, object: u32) -> Result<Lock, Stop>
    requires { thread < 64 }
    ensures does { GivesUnless stop.OutOfMemory result (known_locked true thread object (named isolate.old)) (named isolate.new) }
    ensures err { OnErr result (named isolate.new ≡ named isolate.old) }
    ensures links { isolate.new.env.links ≡ isolate.old.env.links }
    ensures grows { Grows isolate.old isolate.new }
{
    match monitor_entered(isolate, thread, object) {
        Ok(Some(monitor)) => {
            isolate.set_monitor(object, monitor);
            Ok(Lock::Entered(object))
        }
        Ok(None) => Ok(Lock::Waits(object)),
        Err(stop) => Err(stop),
    }
}

/// The monitor that a synchronized method of the class of a number enters, where no other thread owns it.
#[tactic(auto, unfolding(crate::specs::Calls::lock_of))]
fn lock_of(
    isolate: &mut Isolate,
    thread: u32,
    is_static: bool,
    mirror: u32,
    words: &[Word],
) -> Result<Lock, Stop>
    requires class { IsClass isolate.old mirror }
    requires thread { thread < 64 }
    ensures does { GivesUnless stop.OutOfMemory result (lock_of thread is_static (name_at isolate.old mirror) words.now (named isolate.old)) (named isolate.new) }
    ensures err { OnErr result (named isolate.new ≡ named isolate.old) }
    ensures links { isolate.new.env.links ≡ isolate.old.env.links }
    ensures grows { Grows isolate.old isolate.new }
{
    if is_static {
        locked_class(isolate, true, thread, mirror)
    } else {
        match receiver_in(words) {
            Ok(object) => locked_receiver(isolate, thread, object),
            Err(stop) => Err(stop),
        }
    }
}

/// The frame of a method, for which there is room; a synchronized one enters its monitor first.
#[tactic(auto, unfolding(crate::specs::Calls::locked_frame), using(crate::proofs::Telling::entry_grows, crate::proofs::Telling::point_grows, mvm_current::proofs::Growth::keys_grow))]
fn locked_frame(
    isolate: &mut Isolate,
    stack: &mut Stack,
    told: Told,
    entry: Entry,
    member: &MemberName<'_>,
    passed: &Passed,
) -> Result<Left, Stop>
    requires frame { IsSome stack.old.rest.below.key }
    requires keys { AreKeys isolate.old stack.old }
    requires limits { IsStackOf isolate.old.env.launch.limits stack.old }
    requires thread { told.thread < 64 }
    requires key { IsKey isolate.old entry.key }
    requires method { entry.key.method ≢ NO_METHOD }
    requires unlocked { entry.key.lock ≡ None }
    requires class { name_at isolate.old entry.key.mirror ≡ member.now.class }
    requires runs { runs_of isolate.old entry.key 0 ≡ method member.now.class member.now.name member.now.desc }
    requires slots { passed.now.slots ≤ length stack.old.operands.slots }
    requires room { fits (max entry.size.locals passed.now.slots) entry.size.depth stack.old ≡ true }
    ensures does { (c : Context) → IsTold c isolate.old told → Leaves result (locked_frame c member.now entry.flags entry.size passed.now (point_of isolate.old stack.old)) isolate.new stack.new }
    ensures grows { Grows isolate.old isolate.new }
    ensures links { isolate.new.env.links ≡ isolate.old.env.links }
    ensures keys { AreKeys isolate.new stack.new }
    ensures limits { IsStackOf isolate.new.env.launch.limits stack.new }
    ensures after { IfOk result (λ left. IsAfter isolate.new left.after) }
    ensures begins { IfOk result (λ left. MayBegin told.threads isolate.new.env.launch.limits.threads left.after) }
    ensures err { OnErr result (named isolate.new ≡ named isolate.old) }
    ensures stack { OnErr result (stack.new ≡ stack.old) }
{
    frames_law();
    if !has_flag(SYNCHRONIZED, entry.flags) {
        return Ok(framed(stack, told, entry.key, entry.size, passed.slots));
    }
    let is_static = is_static(entry.flags);
    let words = passed.arguments.as_slice();
    match lock_of(isolate, told.thread, is_static, entry.key.mirror, words) {
        Ok(Lock::Entered(object)) => {
            let key = FrameKey {
                mirror: entry.key.mirror,
                method: entry.key.method,
                lock: Some(object),
            };
            Ok(framed(stack, told, key, entry.size, passed.slots))
        }
        Ok(Lock::Waits(object)) => {
            let state = ThreadState::Entering(object, 0);
            Ok(left(told, After::Does(state)))
        }
        Err(stop) => Err(stop),
    }
}

/// The frame of a method stands on the caller, with its arguments. What may fail comes before anything changes.
///
/// # Errors
///
/// A `StackOverflowError`, an `OutOfMemoryError`.
#[tactic(auto, unfolding(crate::specs::Calls::entered_frame), using(mvm_isolate::proofs::Keeping::grows_same))]
pub(crate) fn entered_frame(
    isolate: &mut Isolate,
    stack: &mut Stack,
    told: Told,
    entry: Entry,
    member: &MemberName<'_>,
    passed: &Passed,
) -> Result<Left, Stop>
    requires frame { IsSome stack.old.rest.below.key }
    requires keys { AreKeys isolate.old stack.old }
    requires limits { IsStackOf isolate.old.env.launch.limits stack.old }
    requires thread { told.thread < 64 }
    requires key { IsKey isolate.old entry.key }
    requires method { entry.key.method ≢ NO_METHOD }
    requires unlocked { entry.key.lock ≡ None }
    requires class { name_at isolate.old entry.key.mirror ≡ member.now.class }
    requires runs { runs_of isolate.old entry.key 0 ≡ method member.now.class member.now.name member.now.desc }
    requires slots { passed.now.slots ≤ length stack.old.operands.slots }
    ensures does { (c : Context) → IsTold c isolate.old told → Leaves result (entered_frame c member.now entry.flags entry.size passed.now (point_of isolate.old stack.old)) isolate.new stack.new }
    ensures grows { Grows isolate.old isolate.new }
    ensures links { isolate.new.env.links ≡ isolate.old.env.links }
    ensures keys { AreKeys isolate.new stack.new }
    ensures limits { IsStackOf isolate.new.env.launch.limits stack.new }
    ensures after { IfOk result (λ left. IsAfter isolate.new left.after) }
    ensures begins { IfOk result (λ left. MayBegin told.threads isolate.new.env.launch.limits.threads left.after) }
    ensures err { OnErr result (named isolate.new ≡ named isolate.old) }
    ensures stack { OnErr result (stack.new ≡ stack.old) }
{
    frames_law();
    let locals = wider(entry.size.locals, passed.slots);
    if !room(stack, locals, entry.size.depth) {
        return Err(Stop::Throw(Thrown::StackOverflowError));
    }
    locked_frame(isolate, stack, told, entry, member, passed)
}
