//! What is left of a task.

ghost use Rattle.std.specs.Prelude.{◌≡◌, None, map, IfOk};
ghost use Rattle.mvm_isolate.specs.Numbered.{named};
ghost use Rattle.mvm_interp.specs.Names.{names, uncaught_named};

use crate::block::Uncaught;
use crate::task_state::TaskState;
use mvm_base::{Line, List, OutOfMemory};
use mvm_isolate::Isolate;
use mvm_native::Env;

/// What is left of a task.
#[derive(Debug, Drop)]
pub struct Finished {
    /// All that was printed, in UTF-8.
    pub output: Line,
    /// What nothing caught, in the order in which it came.
    pub uncaught: List<Uncaught>,
}

/// What an isolate has printed, of one that is given up.
#[tactic(auto, unfolding(mvm_isolate::specs::Numbered::named))]
fn output_of(isolate: Isolate) -> Line
    ensures { result ≡ (named isolate).output }
{
    let Env {
        alloc: _,
        heap,
        output,
        waits,
        launch,
        thread: _,
        links,
    } = isolate.give_up();
    drop(heap);
    drop(waits);
    drop(launch);
    drop(links);
    output
}

impl TaskState {
    /// What is left of the task where all that nothing caught was read.
    fn left(self) -> Finished
        requires { self.unread ≡ None }
        ensures output { result.output ≡ (names self).isolate.output }
        ensures uncaught { map uncaught_named result.uncaught ≡ (names self).uncaught }
    {
        let TaskState {
            isolate,
            rows,
            count: _,
            ended: _,
            last: _,
            steps: _,
            message_bytes: _,
            uncaught,
            unread: _,
            act,
            end: _,
        } = self;
        drop(rows);
        drop(act);
        Finished {
            output: output_of(isolate),
            uncaught,
        }
    }

    /// What is left of the task.
    ///
    /// # Errors
    ///
    /// `OutOfMemory` alone.
    pub fn finished(self) -> Result<Finished, OutOfMemory>
        ensures output { IfOk result (λ finished. finished.output ≡ (names self).isolate.output) }
        ensures uncaught { IfOk result (λ finished. map uncaught_named finished.uncaught ≡ (names self).uncaught) }
    {
        let mut task = self;
        task.read_uncaught()?;
        Ok(task.left())
    }
}
