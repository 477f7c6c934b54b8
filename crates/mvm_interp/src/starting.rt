//! Threads that begin.

ghost use Rattle.std.specs.Prelude.{◌≡◌, ◌≤◌, ◌<◌, [], ◌∷◌, Some};
ghost use Rattle.mvm_current.specs.Frames.{bare_frame, starting};
ghost use Rattle.mvm_object.specs.Going.{ready};
ghost use Rattle.mvm_object.specs.declared.state.ThreadState.TheVariants.{Ready};
ghost use Rattle.mvm_thread.specs.Step.{thread_started};
ghost use Rattle.mvm_interp.specs.Names.{names, thread_named};
ghost use Rattle.mvm_interp.specs.Sound.{IsIdle, IsRow};

use crate::row::ThreadRow;
use crate::task_state::TaskState;
use mvm_current::enter_bare;
use mvm_isolate::Isolate;
use mvm_object::ThreadState;

/// A thread begins in a row that no thread has: its first frame is that of its start (JVM Specification 5.2).
pub(crate) fn begin_row(isolate: &Isolate, row: &mut ThreadRow, object: Option<u32>)
    requires idle { IsIdle isolate.now row.old }
    requires frames { 1 ≤ isolate.now.env.launch.limits.frames }
    ensures named { thread_named isolate.now row.new ≡ record { doing = ready; object = object; frames = bare_frame starting 0 ∷ [] } }
    ensures row { IsRow isolate.now row.new }
    ensures state { row.new.state ≡ Ready }
{
    enter_bare(&mut row.stack, isolate.thread_class(), 0);
    row.state = ThreadState::Ready;
    row.object = object;
}

impl TaskState {
    /// Another thread begins, whose object is this (Java SE 8 API, java.lang.Thread).
    pub(crate) fn start(&mut self, object: u32)
        requires { self.old.count < self.old.isolate.env.launch.limits.threads }
        ensures names { names self.new ≡ thread_started object (names self.old) }
        ensures files { self.new.isolate.files ≡ self.old.isolate.files }
    {
        let row = &mut self.rows[self.count as usize];
        begin_row(&self.isolate, row, Some(object));
        self.count += 1;
    }
}
