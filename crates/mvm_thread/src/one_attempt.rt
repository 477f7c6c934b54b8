//! One attempt of one thread (JVM Specification 2.10, 2.11), with what it throws.

ghost use Rattle.std.specs.Prelude.{◌≡◌, ◌<◌, IfOk, IsSome, OnErr};
ghost use Rattle.mvm_isolate.specs.Numbered.{named};
ghost use Rattle.mvm_isolate.specs.Sound.{Grows};
ghost use Rattle.mvm_current.specs.Keys.{frames_named, AreKeys, IsStackOf};
ghost use Rattle.mvm_object.specs.Coming.{doing_named, IsState};
ghost use Rattle.mvm_object.specs.Going.{Context};
ghost use Rattle.mvm_invoke.specs.Leaving.{IsAfter, IsTold, MayBegin};
ghost use Rattle.mvm_thread.specs.Attempt.{attempt};
ghost use Rattle.mvm_thread.specs.Attempts.{Attempts};

use crate::attempting::attempted;
use crate::settling::{settled, thrown};
use mvm_base::{OutOfMemory, Steps};
use mvm_current::frames_law;
use mvm_frame::Stack;
use mvm_invoke::{After, Left, Told};
use mvm_isolate::{Isolate, Stop};
use mvm_object::ThreadState;
use mvm_table::Table;
use mvm_throwing::throw_law;
use std::sync::ledger::Ledger;

/// The same of a thread that has a frame.
#[tactic(auto, unfolding(crate::specs::Attempt::attempt), using(mvm_current::proofs::Entering::frames_are))]
fn made<L: Ledger>(
    isolate: &mut Isolate,
    table: &Table,
    stack: &mut Stack,
    told: Told,
    state: ThreadState,
    steps: &mut Steps<L>,
) -> Result<Left, OutOfMemory>
    requires files { table.now.files ≡ isolate.old.files }
    requires frame { IsSome stack.old.rest.below.key }
    requires keys { AreKeys isolate.old stack.old }
    requires limits { IsStackOf isolate.old.env.launch.limits stack.old }
    requires state { IsState isolate.old state }
    requires thread { told.thread < 64 }
    ensures does { (c : Context) → IsTold c isolate.old told → Attempts result (attempt c (doing_named isolate.old state) (named isolate.old) (frames_named isolate.old stack.old)) isolate.new stack.new }
    ensures after { IfOk result (λ left. IsAfter isolate.new left.after) }
    ensures begins { IfOk result (λ left. MayBegin told.threads isolate.new.env.launch.limits.threads left.after) }
    ensures err { OnErr result (named isolate.new ≡ named isolate.old) }
    ensures stack { OnErr result (stack.new ≡ stack.old) }
    ensures links { isolate.new.env.links ≡ isolate.old.env.links }
    ensures keys { AreKeys isolate.new stack.new }
    ensures limits { IsStackOf isolate.new.env.launch.limits stack.new }
    ensures grows { Grows isolate.old isolate.new }
{
    frames_law();
    throw_law();
    match attempted(isolate, table, stack, told, state, steps) {
        Ok(left) => Ok(settled(stack, left)),
        Err(why) => match why {
            Stop::OutOfMemory => Err(OutOfMemory),
            Stop::Throw(_) | Stop::Object(_) => Ok(thrown(isolate, stack, told, why)),
        },
    }
}

/// One attempt of a thread that does this, with what it throws (JVM Specification 2.10, 2.11).
///
/// # Errors
///
/// `OutOfMemory` alone, where the machine's own memory runs out; then nothing has changed.
#[tactic(auto, unfolding(crate::specs::Attempt::attempt), using(crate::proofs::Frames::no_frames, mvm_isolate::proofs::Keeping::grows_same))]
pub fn attempt<L: Ledger>(
    isolate: &mut Isolate,
    table: &Table,
    stack: &mut Stack,
    told: Told,
    state: ThreadState,
    steps: &mut Steps<L>,
) -> Result<Left, OutOfMemory>
    requires files { table.now.files ≡ isolate.old.files }
    requires keys { AreKeys isolate.old stack.old }
    requires limits { IsStackOf isolate.old.env.launch.limits stack.old }
    requires state { IsState isolate.old state }
    requires thread { told.thread < 64 }
    ensures does { (c : Context) → IsTold c isolate.old told → Attempts result (attempt c (doing_named isolate.old state) (named isolate.old) (frames_named isolate.old stack.old)) isolate.new stack.new }
    ensures after { IfOk result (λ left. IsAfter isolate.new left.after) }
    ensures begins { IfOk result (λ left. MayBegin told.threads isolate.new.env.launch.limits.threads left.after) }
    ensures err { OnErr result (named isolate.new ≡ named isolate.old) }
    ensures stack { OnErr result (stack.new ≡ stack.old) }
    ensures links { isolate.new.env.links ≡ isolate.old.env.links }
    ensures keys { AreKeys isolate.new stack.new }
    ensures limits { IsStackOf isolate.new.env.launch.limits stack.new }
    ensures grows { Grows isolate.old isolate.new }
{
    match stack.top() {
        Some(_) => made(isolate, table, stack, told, state, steps),
        None => Ok(Left {
            object: told.object,
            after: After::Does(ThreadState::Ended),
        }),
    }
}
