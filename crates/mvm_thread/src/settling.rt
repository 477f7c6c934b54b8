//! What an attempt comes to, with what it throws (JVM Specification 2.10, 6.5 under athrow).

ghost use Rattle.std.specs.Prelude.{◌≡◌, ◌<◌, ℕ, Ok};
ghost use Rattle.mvm_current.specs.Keys.{frames_named, AreKeys, IsStackOf};
ghost use Rattle.mvm_history.specs.declared.limits.Limits.{Limits as LimitsOf};
ghost use Rattle.mvm_invoke.specs.Leaving.{after_named, left_named, IsAfter, IsTold, MayBegin};
ghost use Rattle.mvm_isolate.specs.Numbered.{named, Numbered};
ghost use Rattle.mvm_isolate.specs.Sound.{Grows};
ghost use Rattle.mvm_object.specs.Going.{Context};
ghost use Rattle.mvm_thread.specs.Attempt.{after_throw, after_unwinding, settled_by};
ghost use Rattle.mvm_throwing.specs.Throwing.{throw};

use mvm_frame::Stack;
use mvm_invoke::{After, Left, Told};
use mvm_isolate::{Isolate, Stop};
use mvm_object::ThreadState;
use mvm_throwing::throw;

/// The thread goes on at a handler, or ends by what nothing caught.
#[tactic(auto, using(mvm_current::proofs::Entering::frames_are, crate::proofs::Frames::no_frames))]
fn after_unwinding(stack: &Stack, object: u32) -> After
    ensures after { (n : Numbered) → after_named n result ≡ after_unwinding (frames_named n stack.now) object }
    ensures is { (n : Numbered) → IsAfter n result }
    ensures begins { (threads most : ℕ) → MayBegin threads most result }
{
    match stack.top() {
        Some(_) => After::Does(ThreadState::Ready),
        None => After::EndsUncaught(object),
    }
}

/// Something is thrown in a thread, and it goes on at a handler, or ends. It takes no memory of the machine's own.
pub(crate) fn thrown(isolate: &mut Isolate, stack: &mut Stack, told: Told, why: Stop) -> Left
    requires keys { AreKeys isolate.old stack.old }
    requires thread { told.thread < 64 }
    ensures does { (c : Context) → IsTold c isolate.old told → after_throw c (throw c.look c.thread why (named isolate.old) (frames_named isolate.old stack.old)) ≡ Ok (left_named isolate.new stack.new result) }
    ensures after { IsAfter isolate.new result.after }
    ensures begins { (threads most : ℕ) → MayBegin threads most result.after }
    ensures keys { AreKeys isolate.new stack.new }
    ensures limits { (limits : LimitsOf) → IsStackOf limits stack.old → IsStackOf limits stack.new }
    ensures links { isolate.new.env.links ≡ isolate.old.env.links }
    ensures grows { Grows isolate.old isolate.new }
{
    let object = throw(isolate, stack, told.thread, why);
    Left {
        object: told.object,
        after: after_unwinding(stack, object),
    }
}

/// What an attempt that threw nothing comes to: a thread without frames has ended.
#[tactic(auto, using(mvm_current::proofs::Entering::frames_are, crate::proofs::Frames::no_frames))]
pub(crate) fn settled(stack: &Stack, left: Left) -> Left
    ensures does { (n : Numbered) → left_named n stack.now result ≡ settled_by (left_named n stack.now left) (left_named n stack.now left).after }
    ensures after { (n : Numbered) → IsAfter n left.after → IsAfter n result.after }
    ensures begins { (threads most : ℕ) → MayBegin threads most left.after → MayBegin threads most result.after }
{
    match (left.after, stack.top()) {
        (After::Does(ThreadState::Ready), None) => Left {
            object: left.object,
            after: After::Does(ThreadState::Ended),
        },
        (after, _) => Left {
            object: left.object,
            after,
        },
    }
}
