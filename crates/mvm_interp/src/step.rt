//! One step of an isolate.

ghost use Rattle.std.specs.Prelude.{◌≡◌, ◌≢◌, ◌<◌, ◌+◌, ◌^◌, None, true, IfOk, OnErr, OnOk};
ghost use Rattle.mvm_thread.specs.State.{can_step};
ghost use Rattle.mvm_thread.specs.Step.{step};
ghost use Rattle.mvm_interp.specs.Names.{names, stepped_of};

use crate::stepped::Stepped;
use crate::task_state::TaskState;
use mvm_base::{OutOfMemory, Steps};
use mvm_history::{End, LimitKind};
use mvm_table::Table;
use std::sync::ledger::Ledger;

impl TaskState {
    /// A step where fewer were made than there may be.
    fn step_within<L: Ledger>(
        &mut self,
        thread: u32,
        table: &Table,
        steps: &mut Steps<L>,
    ) -> Result<(), OutOfMemory>
        requires files { table.now.files ≡ self.old.isolate.files }
        requires can { can_step (names self.old) thread ≡ true }
        requires more { self.old.steps ≢ self.old.isolate.env.launch.limits.steps }
        requires counts { self.old.steps + 1 < 2 ^ 64 }
        ensures does { OnOk result (names self.new ≡ step table.now.files (names self.old) thread) }
        ensures files { self.new.isolate.files ≡ self.old.isolate.files }
        ensures err { OnErr result (names self.new ≡ names self.old) }
    {
        self.read_uncaught()?;
        let after = self.attempted(thread, table, steps)?;
        self.finish(thread, after);
        Ok(())
    }

    /// A step: where as many were made as there may be, the isolate ends, and the attempt is not made.
    #[tactic(auto, using(crate::proofs::Stepping::limit_is))]
    fn step_by<L: Ledger>(
        &mut self,
        thread: u32,
        table: &Table,
        steps: &mut Steps<L>,
    ) -> Result<(), OutOfMemory>
        requires files { table.now.files ≡ self.old.isolate.files }
        requires can { can_step (names self.old) thread ≡ true }
        ensures does { OnOk result (names self.new ≡ step table.now.files (names self.old) thread) }
        ensures files { self.new.isolate.files ≡ self.old.isolate.files }
        ensures err { OnErr result (names self.new ≡ names self.old) }
    {
        if self.steps == self.isolate.launch().limits.steps {
            self.end_by(End::Limit(LimitKind::Steps));
            return Ok(());
        }
        self.step_within(thread, table, steps)
    }

    /// One attempt of the thread of a number, which can make one, of a task that has not ended, with all that comes of it for the
    /// isolate. It answers what that came to.
    ///
    /// # Errors
    ///
    /// `OutOfMemory` alone, where the machine's own memory runs out; then by names nothing has changed.
    pub fn step<L: Ledger>(
        &mut self,
        thread: u32,
        table: &Table,
        steps: &mut Steps<L>,
    ) -> Result<Stepped, OutOfMemory>
        requires files { table.now.files ≡ self.old.isolate.files }
        requires running { (names self.old).end ≡ None }
        requires can { can_step (names self.old) thread ≡ true }
        ensures does { OnOk result (names self.new ≡ step table.now.files (names self.old) thread) }
        ensures files { self.new.isolate.files ≡ self.old.isolate.files }
        ensures answer { IfOk result (λ stepped. stepped ≡ stepped_of thread (names self.new)) }
        ensures err { OnErr result (names self.new ≡ names self.old) }
    {
        self.step_by(thread, table, steps)?;
        Ok(self.stepped(thread))
    }
}
