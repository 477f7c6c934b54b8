//! What the answer of a native method means for its thread (JVM Specification 2.6.4; Java SE 8 API, java.lang.Thread and java.lang.Object).

ghost use Rattle.std.specs.Prelude.{◌≡◌, ◌≤◌, ◌<◌, ℕ, nat_lt, length, Some, IsSome, IfOk, OnErr};
ghost use Rattle.mvm_history.specs.declared.limits.Limits.{Limits as LimitsOf};
ghost use Rattle.mvm_isolate.specs.Numbered.{named, Numbered};
ghost use Rattle.mvm_isolate.specs.Sound.{Grows};
ghost use Rattle.mvm_current.specs.Keys.{AreKeys, IsStackOf, RunsMethod};
ghost use Rattle.mvm_object.specs.Coming.{point_of};
ghost use Rattle.mvm_object.specs.Going.{Context};
ghost use Rattle.mvm_invoke.specs.NativeCalls.{acting, answered, current_object, going, has_number, joining_thread, leaving, native_done, off, returning, starting_thread, waiting_on, with_thread_number, MayFail};
ghost use Rattle.mvm_invoke.specs.Leaving.{after_named, has_bit, left_named, IsAfter, IsTold, Leaves, MayBegin};

use crate::caller::{Caller, left};
use crate::left::{After, Left, Told};
use crate::passed::Passed;
use mvm_base::Word;
use mvm_builtin::Native;
use mvm_current::{frames_law, push, set_place};
use mvm_frame::Stack;
use mvm_heap::ObjectKind;
use mvm_history::LimitKind;
use mvm_isolate::{Isolate, Stop};
use mvm_locking::monitor_freed;
use mvm_native::{Act, Out};
use mvm_object::ThreadState;

/// The arguments are taken off, and the call stays where it is, for what is left to be done.
#[tactic(auto, unfolding(mvm_current::specs::Keys::callers_named))]
fn leaving(stack: &mut Stack, told: Told, slots: u16, after: After) -> Left
    requires frame { IsSome stack.old.rest.below.key }
    requires slots { slots ≤ length stack.old.operands.slots }
    ensures does { (c : Context) (n : Numbered) → c.object ≡ told.object → leaving c (after_named n after) (off slots (point_of n stack.old)) ≡ left_named n stack.new result }
    ensures rest { stack.new.rest ≡ stack.old.rest }
    ensures after { result.after ≡ after }
{
    frames_law();
    stack.drop_slots(usize::from(slots));
    left(told, after)
}

/// The arguments are taken off, and the thread goes on behind the call.
#[tactic(auto, unfolding(mvm_current::specs::Keys::callers_named))]
fn going(stack: &mut Stack, caller: Caller, slots: u16, after: After) -> Left
    requires frame { IsSome stack.old.rest.below.key }
    requires method { RunsMethod stack.old }
    requires slots { slots ≤ length stack.old.operands.slots }
    ensures does { (c : Context) (n : Numbered) → c.object ≡ caller.told.object → going c caller.next (after_named n after) (off slots (point_of n stack.old)) ≡ left_named n stack.new result }
    ensures below { stack.new.rest.below ≡ stack.old.rest.below }
    ensures after { result.after ≡ after }
{
    frames_law();
    stack.drop_slots(usize::from(slots));
    set_place(stack, caller.next);
    left(caller.told, after)
}

/// The same with a value in the place of the arguments, where it fits.
#[tactic(auto, unfolding(mvm_current::specs::Keys::callers_named))]
fn giving(stack: &mut Stack, caller: Caller, slots: u16, word: Word) -> Left
    requires frame { IsSome stack.old.rest.below.key }
    requires method { RunsMethod stack.old }
    requires slots { slots ≤ length stack.old.operands.slots }
    ensures does { (c : Context) (n : Numbered) → c.object ≡ caller.told.object → returning c caller.next (Some word) (off slots (point_of n stack.old)) ≡ left_named n stack.new result }
    ensures below { stack.new.rest.below ≡ stack.old.rest.below }
    ensures after { (n : Numbered) → IsAfter n result.after }
    ensures begins { (threads most : ℕ) → MayBegin threads most result.after }
{
    frames_law();
    stack.drop_slots(usize::from(slots));
    match push(stack, word) {
        Ok(()) => {}
        Err(_) => {}
    }
    set_place(stack, caller.next);
    left(caller.told, After::Does(ThreadState::Ready))
}

/// It returns: the thread goes on behind the call.
fn returning(stack: &mut Stack, caller: Caller, slots: u16, value: Option<Word>) -> Left
    requires frame { IsSome stack.old.rest.below.key }
    requires method { RunsMethod stack.old }
    requires slots { slots ≤ length stack.old.operands.slots }
    ensures does { (c : Context) (n : Numbered) → c.object ≡ caller.told.object → returning c caller.next value (off slots (point_of n stack.old)) ≡ left_named n stack.new result }
    ensures below { stack.new.rest.below ≡ stack.old.rest.below }
    ensures after { (n : Numbered) → IsAfter n result.after }
    ensures begins { (threads most : ℕ) → MayBegin threads most result.after }
{
    match value {
        Some(word) => giving(stack, caller, slots, word),
        None => going(stack, caller, slots, After::Does(ThreadState::Ready)),
    }
}

/// The thread waits for what it wants of the world outside its isolate.
fn acting(stack: &mut Stack, told: Told, slots: u16, act: Act) -> Left
    requires frame { IsSome stack.old.rest.below.key }
    requires slots { slots ≤ length stack.old.operands.slots }
    ensures does { (c : Context) (n : Numbered) → c.object ≡ told.object → acting c act (off slots (point_of n stack.old)) ≡ left_named n stack.new result }
    ensures rest { stack.new.rest ≡ stack.old.rest }
    ensures after { (n : Numbered) → IsAfter n result.after }
    ensures begins { (threads most : ℕ) → MayBegin threads most result.after }
{
    match act {
        Act::Offer { link, message } => {
            let state = ThreadState::Sending(link);
            leaving(
                stack,
                told,
                slots,
                After::Acts(Act::Offer { link, message }, state),
            )
        }
        Act::Receive { link } => {
            let state = ThreadState::Receiving(link);
            leaving(stack, told, slots, After::Does(state))
        }
        Act::Ask(ask) => {
            let state = ThreadState::Asking;
            leaving(stack, told, slots, After::Acts(Act::Ask(ask), state))
        }
    }
}

/// The object of a thread has the thread's number.
#[tactic(auto, unfolding(crate::specs::NativeCalls::with_thread_number), using(mvm_isolate::proofs::Keeping::grows_same))]
fn set_thread_number(isolate: &mut Isolate, object: u32, thread: u32)
    ensures named { named isolate.new ≡ with_thread_number object thread (named isolate.old) }
    ensures links { isolate.new.env.links ≡ isolate.old.env.links }
    ensures grows { Grows isolate.old isolate.new }
{
    if object < isolate.count()
        && isolate.length(object) > 1
        && !matches!(isolate.kind_of(object), ObjectKind::Text)
    {
        isolate.set_number(object, 1, u64::from(thread) + 1);
    }
}

/// Whether there may be another thread.
fn may_start(isolate: &Isolate, told: Told) -> bool
    ensures { result ≡ nat_lt told.threads isolate.now.env.launch.limits.threads }
{
    u64::from(told.threads) < isolate.launch().limits.threads
}

/// Another thread starts, with the next number, unless there may be no more.
#[tactic(auto, using(crate::proofs::Telling::point_grows, mvm_isolate::proofs::Keeping::grows_same))]
fn starting_thread(
    isolate: &mut Isolate,
    stack: &mut Stack,
    caller: Caller,
    slots: u16,
    object: u32,
) -> Left
    requires frame { IsSome stack.old.rest.below.key }
    requires method { RunsMethod stack.old }
    requires keys { AreKeys isolate.old stack.old }
    requires slots { slots ≤ length stack.old.operands.slots }
    ensures does { (c : Context) → IsTold c isolate.old caller.told → starting_thread c caller.next object (off slots (point_of isolate.old stack.old)) ≡ left_named isolate.new stack.new result }
    ensures below { stack.new.rest.below ≡ stack.old.rest.below }
    ensures links { isolate.new.env.links ≡ isolate.old.env.links }
    ensures grows { Grows isolate.old isolate.new }
    ensures after { (n : Numbered) → IsAfter n result.after }
    ensures begins { MayBegin caller.told.threads isolate.new.env.launch.limits.threads result.after }
{
    if may_start(isolate, caller.told) {
        set_thread_number(isolate, object, caller.told.threads);
        going(stack, caller, slots, After::Starts(object))
    } else {
        let after = After::Limited(LimitKind::Threads);
        leaving(stack, caller.told, slots, after)
    }
}

/// Whether the thread of a number has ended.
#[tactic(auto, unfolding(crate::specs::Leaving::has_bit))]
fn has_bit(bits: u64, number: u32) -> bool
    ensures { result ≡ has_bit bits number }
{
    number < 64 && (bits >> number) % 2 == 1
}

/// A thread joins another one: it goes on at once where that has ended.
fn joining_thread(stack: &mut Stack, caller: Caller, slots: u16, thread: u32) -> Left
    requires frame { IsSome stack.old.rest.below.key }
    requires method { RunsMethod stack.old }
    requires slots { slots ≤ length stack.old.operands.slots }
    ensures does { (c : Context) (n : Numbered) → IsTold c n caller.told → joining_thread c caller.next thread (off slots (point_of n stack.old)) ≡ left_named n stack.new result }
    ensures below { stack.new.rest.below ≡ stack.old.rest.below }
    ensures after { (n : Numbered) → IsAfter n result.after }
    ensures begins { (threads most : ℕ) → MayBegin threads most result.after }
{
    if has_bit(caller.told.ended, thread) {
        going(stack, caller, slots, After::Does(ThreadState::Ready))
    } else {
        let state = ThreadState::Joining(thread);
        leaving(stack, caller.told, slots, After::Does(state))
    }
}

/// The thread waits on an object, and gives its monitor up whole.
#[tactic(auto, using(crate::proofs::Telling::point_grows))]
fn waiting_on(isolate: &mut Isolate, stack: &mut Stack, told: Told, slots: u16, object: u32) -> Left
    requires frame { IsSome stack.old.rest.below.key }
    requires keys { AreKeys isolate.old stack.old }
    requires slots { slots ≤ length stack.old.operands.slots }
    ensures does { (c : Context) → c.object ≡ told.object → waiting_on c object (off slots (point_of isolate.old stack.old)) ≡ left_named isolate.new stack.new result }
    ensures below { stack.new.rest.below ≡ stack.old.rest.below }
    ensures links { isolate.new.env.links ≡ isolate.old.env.links }
    ensures grows { Grows isolate.old isolate.new }
    ensures after { (n : Numbered) → IsAfter n result.after }
    ensures begins { (threads most : ℕ) → MayBegin threads most result.after }
{
    let state = ThreadState::Waiting(object, monitor_freed(isolate, object));
    leaving(stack, told, slots, After::Does(state))
}

/// The object of the thread, which for the first thread is made at its first call.
///
/// # Errors
///
/// It throws `OutOfMemoryError` where words of the heap are missing.
#[tactic(auto, using(crate::proofs::Telling::point_grows, mvm_isolate::proofs::Keeping::grows_same, mvm_isolate::proofs::Keeping::grows_then))]
fn current_object(
    isolate: &mut Isolate,
    stack: &mut Stack,
    caller: Caller,
    slots: u16,
) -> Result<Left, Stop>
    requires frame { IsSome stack.old.rest.below.key }
    requires method { RunsMethod stack.old }
    requires keys { AreKeys isolate.old stack.old }
    requires slots { slots ≤ length stack.old.operands.slots }
    ensures does { (c : Context) → IsTold c isolate.old caller.told → Leaves result (current_object c caller.next c.object (off slots (point_of isolate.old stack.old))) isolate.new stack.new }
    ensures below { stack.new.rest.below ≡ stack.old.rest.below }
    ensures links { isolate.new.env.links ≡ isolate.old.env.links }
    ensures grows { Grows isolate.old isolate.new }
    ensures after { IfOk result (λ left. IsAfter isolate.new left.after) }
    ensures begins { IfOk result (λ left. MayBegin caller.told.threads isolate.new.env.launch.limits.threads left.after) }
    ensures err { OnErr result (named isolate.new ≡ named isolate.old) }
    ensures stack { OnErr result (stack.new ≡ stack.old) }
{
    match caller.told.object {
        Some(object) => Ok(giving(stack, caller, slots, Word::Ref(object))),
        None => {
            let class = isolate.thread_class();
            match isolate.new_object(class, 2) {
                Ok(object) => {
                    set_thread_number(isolate, object, caller.told.thread);
                    let left = giving(stack, caller, slots, Word::Ref(object));
                    Ok(Left {
                        object: Some(object),
                        after: left.after,
                    })
                }
                Err(stop) => Err(stop),
            }
        }
    }
}

/// What the answer of a native method means for its thread.
///
/// # Errors
///
/// What the method throws, and what [`current_object`] throws.
fn answered(
    isolate: &mut Isolate,
    stack: &mut Stack,
    caller: Caller,
    slots: u16,
    answer: Out,
) -> Result<Left, Stop>
    requires frame { IsSome stack.old.rest.below.key }
    requires method { RunsMethod stack.old }
    requires keys { AreKeys isolate.old stack.old }
    requires slots { slots ≤ length stack.old.operands.slots }
    ensures does { (c : Context) → IsTold c isolate.old caller.told → Leaves result (answered c caller.next (off slots (point_of isolate.old stack.old)) answer) isolate.new stack.new }
    ensures below { stack.new.rest.below ≡ stack.old.rest.below }
    ensures grows { Grows isolate.old isolate.new }
    ensures links { isolate.new.env.links ≡ isolate.old.env.links }
    ensures after { IfOk result (λ left. IsAfter isolate.new left.after) }
    ensures begins { IfOk result (λ left. MayBegin caller.told.threads isolate.new.env.launch.limits.threads left.after) }
    ensures fails { OnErr result (MayFail answer) }
    ensures err { OnErr result (named isolate.new ≡ named isolate.old) }
    ensures stack { OnErr result (stack.new ≡ stack.old) }
{
    let told = caller.told;
    match answer {
        Out::Value(value) => Ok(returning(stack, caller, slots, value)),
        Out::Throw(thrown) => Err(Stop::Throw(thrown)),
        Out::Act(act) => Ok(acting(stack, told, slots, act)),
        Out::Start(object) => Ok(starting_thread(isolate, stack, caller, slots, object)),
        Out::Join(thread) => Ok(joining_thread(stack, caller, slots, thread)),
        Out::Wait(object) => Ok(waiting_on(isolate, stack, told, slots, object)),
        Out::Notify(object, all) => {
            Ok(going(stack, caller, slots, After::Notifies(object, all)))
        }
        Out::Current => current_object(isolate, stack, caller, slots),
        Out::Exit(status) => Ok(leaving(stack, told, slots, After::Exits(status))),
        Out::Limit(kind) => Ok(leaving(stack, told, slots, After::Limited(kind))),
    }
}

/// A native method is called, and its thread does what it answers. Where it throws, nothing is changed.
///
/// # Errors
///
/// What the method throws; a `VerifyError` where the arguments are not what it takes them for.
#[tactic(auto, unfolding(crate::specs::NativeCalls::native_done), using(mvm_isolate::proofs::Keeping::grows_then))]
pub(crate) fn native_done(
    isolate: &mut Isolate,
    stack: &mut Stack,
    caller: Caller,
    native: Native,
    passed: &Passed,
) -> Result<Left, Stop>
    requires frame { IsSome stack.old.rest.below.key }
    requires method { RunsMethod stack.old }
    requires keys { AreKeys isolate.old stack.old }
    requires slots { passed.now.slots ≤ length stack.old.operands.slots }
    ensures does { (c : Context) → IsTold c isolate.old caller.told → Leaves result (native_done c native passed.now caller.next (point_of isolate.old stack.old)) isolate.new stack.new }
    ensures below { stack.new.rest.below ≡ stack.old.rest.below }
    ensures grows { Grows isolate.old isolate.new }
    ensures links { isolate.new.env.links ≡ isolate.old.env.links }
    ensures after { IfOk result (λ left. IsAfter isolate.new left.after) }
    ensures begins { IfOk result (λ left. MayBegin caller.told.threads isolate.new.env.launch.limits.threads left.after) }
    ensures err { OnErr result (named isolate.new ≡ named isolate.old) }
    ensures stack { OnErr result (stack.new ≡ stack.old) }
{
    let words = passed.arguments.as_slice();
    match isolate.native_called(caller.told.thread, native, words) {
        Ok(answer) => answered(isolate, stack, caller, passed.slots, answer),
        Err(stop) => Err(stop),
    }
}
