//! The first part of a step: the attempt of a thread, and what the thread does from then on.

ghost use Rattle.std.specs.Prelude.{◌≡◌, ◌≢◌, ◌<◌, ◌+◌, ◌^◌, true, IfOk, IfSome, OnErr, Ok, None, slice_get};
ghost use Rattle.mvm_isolate.specs.Numbered.{look_of, named};
ghost use Rattle.mvm_isolate.specs.Sound.{Grows};
ghost use Rattle.mvm_current.specs.Keys.{frames_named};
ghost use Rattle.mvm_object.specs.Coming.{doing_named};
ghost use Rattle.mvm_object.specs.Going.{Context};
ghost use Rattle.mvm_invoke.specs.Leaving.{IsTold, MayBegin};
ghost use Rattle.mvm_thread.specs.Attempt.{attempt};
ghost use Rattle.mvm_thread.specs.State.{can_step};
ghost use Rattle.mvm_thread.specs.Step.{context_of};
ghost use Rattle.mvm_interp.specs.Finishing.{state_after, went_of, with_bit, Attempted};
ghost use Rattle.mvm_interp.specs.Names.{names};
ghost use Rattle.mvm_interp.specs.Sound.{IsRow};

use crate::linking::link;
use crate::row::ThreadRow;
use crate::rows::is_over;
use crate::task_state::TaskState;
use mvm_base::{OutOfMemory, Steps};
use mvm_invoke::{After, Told};
use mvm_isolate::Isolate;
use mvm_object::ThreadState;
use mvm_table::Table;
use mvm_thread::attempt;
use std::sync::ledger::Ledger;

/// What a thread does after an attempt that left this to be done.
fn state_after(after: &After) -> ThreadState
    ensures { result ≡ state_after after.now }
{
    match after {
        After::Does(state) | After::Acts(_, state) => *state,
        After::Starts(_) | After::Notifies(_, _) | After::Exits(_) | After::Limited(_) => {
            ThreadState::Ready
        }
        After::EndsUncaught(_) => ThreadState::Ended,
    }
}

/// The bits of the threads that have ended, with that of a thread that has ended now.
fn with_bit(bits: u64, thread: u32, over: bool) -> u64
    requires thread { thread < 64 }
    requires fits { over ≡ true → bits + 2 ^ thread < 2 ^ 64 }
    ensures { result ≡ with_bit bits thread over }
{
    if over { bits + (1 << thread) } else { bits }
}

/// One attempt of the thread of a row, after which the row says what it does from then on.
#[tactic(auto, using(crate::proofs::Growing::state_grows))]
fn attempted_row<L: Ledger>(
    isolate: &mut Isolate,
    table: &Table,
    row: &mut ThreadRow,
    told: Told,
    steps: &mut Steps<L>,
) -> Result<After, OutOfMemory>
    requires files { table.now.files ≡ isolate.old.files }
    requires row { IsRow isolate.old row.old }
    requires thread { told.thread < 64 }
    ensures does { (c : Context) → IsTold c isolate.old told → IfOk result (λ after. attempt c (doing_named isolate.old row.old.state) (named isolate.old) (frames_named isolate.old row.old.stack) ≡ Ok (went_of isolate.new row.new after)) }
    ensures state { IfOk result (λ after. row.new.state ≡ state_after after) }
    ensures begins { IfOk result (λ after. MayBegin told.threads isolate.new.env.launch.limits.threads after) }
    ensures row { IsRow isolate.new row.new }
    ensures err { OnErr result (named isolate.new ≡ named isolate.old) }
    ensures same { OnErr result (row.new ≡ row.old) }
    ensures links { isolate.new.env.links ≡ isolate.old.env.links }
    ensures grows { Grows isolate.old isolate.new }
{
    let left = attempt(isolate, table, &mut row.stack, told, row.state, steps)?;
    row.object = left.object;
    row.state = state_after(&left.after);
    Ok(left.after)
}

impl TaskState {
    /// What an attempt of a thread is told.
    fn told(&self, thread: u32) -> Told
        requires { thread < self.now.count }
        ensures told { IfSome (slice_get (names self.now).threads thread) (λ was. IsTold (context_of (look_of self.now.isolate) thread was (names self.now)) self.now.isolate result) }
        ensures thread { result.thread ≡ thread }
        ensures threads { result.threads ≡ self.now.count }
    {
        Told {
            thread,
            threads: self.count,
            ended: self.ended,
            object: self.rows[thread as usize].object,
        }
    }

    /// A thread that can make an attempt makes it, and what comes of that is done as far as it concerns the thread alone.
    pub(crate) fn attempted<L: Ledger>(
        &mut self,
        thread: u32,
        table: &Table,
        steps: &mut Steps<L>,
    ) -> Result<After, OutOfMemory>
        requires files { table.now.files ≡ self.old.isolate.files }
        requires can { can_step (names self.old) thread ≡ true }
        requires more { self.old.steps ≢ self.old.isolate.env.launch.limits.steps }
        requires counts { self.old.steps + 1 < 2 ^ 64 }
        requires read { self.old.unread ≡ None }
        ensures does { IfOk result (λ after. Attempted self.old self.new thread after) }
        ensures begins { IfOk result (λ after. MayBegin self.new.count self.new.isolate.env.launch.limits.threads after) }
        ensures read { self.new.unread ≡ None }
        ensures files { self.new.isolate.files ≡ self.old.isolate.files }
        ensures err { OnErr result (names self.new ≡ names self.old) }
    {
        let told = self.told(thread);
        let row = &mut self.rows[thread as usize];
        let after = attempted_row(&mut self.isolate, table, row, told, steps)?;
        let state = row.state;
        link(&mut self.isolate, thread, state);
        self.ended = with_bit(self.ended, thread, is_over(state));
        self.steps += 1;
        Ok(after)
    }
}
