//! An isolate with its threads, as a value between two steps.

ghost use Rattle.std.specs.Prelude.{◌≡◌, slice_get};
ghost use Rattle.mvm_isolate.specs.Monitors.{monitor_at};
ghost use Rattle.mvm_isolate.specs.Numbered.{name_at, named, IsClass};
ghost use Rattle.mvm_object.specs.Coming.{doing_named, IsState};
ghost use Rattle.mvm_thread.specs.State.{can_do, can_step, is_ended, is_open, is_unowned};
ghost use Rattle.mvm_interp.specs.Names.{names, of_thread, stepped_of};

use crate::block::Uncaught;
use crate::row::ThreadRow;
use crate::rows::has_ended;
use crate::stepped::Stepped;
use crate::unread::Unread;
use mvm_base::{Line, List};
use mvm_history::End;
use mvm_isolate::Isolate;
use mvm_mirror::InitState;
use mvm_native::Act;
use mvm_object::ThreadState;
use std::marker::Model;

/// An isolate with its threads between two steps (JVM Specification 2.5).
#[derive(Drop)]
pub struct TaskState {
    pub(crate) isolate: Isolate,
    /// A row for each thread that there may ever be, with its stack.
    pub(crate) rows: Vec<ThreadRow>,
    /// How many threads there are: the first so many of the rows.
    pub(crate) count: u32,
    /// Which of them have ended: bit n stands for thread n.
    pub(crate) ended: u64,
    /// The thread of the last turn.
    pub(crate) last: Option<u32>,
    /// How many attempts were made.
    pub(crate) steps: u64,
    /// The bytes of the messages that were sent and received.
    pub(crate) message_bytes: u64,
    /// What nothing caught, as far as it was read.
    pub(crate) uncaught: List<Uncaught>,
    /// And behind that what was not read yet.
    pub(crate) unread: Option<Unread>,
    /// What a thread wants of the world outside its isolate.
    pub(crate) act: Option<Act>,
    pub(crate) end: Option<End>,
}

impl Model for TaskState {
    ghost use Rattle.mvm_interp.specs.Names.{TaskParts};
    ghost use Rattle.mvm_interp.specs.Sound.{IsTask};

    ghost Value = { TaskParts };

    ghost view = { λ t. record { isolate = t.isolate; rows = t.rows.items; count = t.count; ended = t.ended; last = t.last; steps = t.steps; message_bytes = t.message_bytes; uncaught = t.uncaught; unread = t.unread; act = t.act; end = t.end } };

    ghost invariant = { λ t. IsTask t.isolate t.rows.items t.count t.ended t.steps };
}

/// Nobody owns the monitor of an object.
fn is_unowned(isolate: &Isolate, object: u32) -> bool
    ensures { result ≡ is_unowned (monitor_at (named isolate.now) object) }
{
    object < isolate.count() && isolate.monitor(object).owner.is_none()
}

/// The class of a number is not being initialised by another thread.
fn is_open(isolate: &Isolate, thread: u32, mirror: u32) -> bool
    requires { IsClass isolate.now mirror }
    ensures { result ≡ is_open thread ((named isolate.now).classes.states (name_at isolate.now mirror)) }
{
    match isolate.state(mirror) {
        InitState::InProgress(other) => other == thread,
        InitState::NotBegun | InitState::Initialised | InitState::Erroneous => true,
    }
}

impl TaskState {
    /// What its threads share.
    pub fn isolate(&self) -> &Isolate
        ensures { result.now ≡ self.now.isolate }
    {
        &self.isolate
    }

    /// How many threads there are. They are numbered from 0.
    pub fn threads(&self) -> u32
        ensures { result ≡ self.now.count }
    {
        self.count
    }

    /// How many attempts were made.
    pub fn steps(&self) -> u64
        ensures { result ≡ (names self.now).steps }
    {
        self.steps
    }

    /// How it ended, if it did.
    pub fn end(&self) -> Option<End>
        ensures { result ≡ (names self.now).end }
    {
        self.end
    }

    /// The thread of the last turn.
    pub fn last(&self) -> Option<u32>
        ensures { result ≡ (names self.now).last }
    {
        self.last
    }

    /// The bytes of the messages that were sent and received.
    pub fn message_bytes(&self) -> u64
        ensures { result ≡ (names self.now).message_bytes }
    {
        self.message_bytes
    }

    /// What it has printed, in UTF-8.
    pub fn output(&self) -> &Line
        ensures { result.now ≡ (names self.now).isolate.output }
    {
        self.isolate.output()
    }

    /// What a thread wants of the world outside its isolate, as long as nothing was done about it.
    pub fn act(&self) -> &Option<Act>
        ensures { result.now ≡ (names self.now).act }
    {
        &self.act
    }

    /// Whether a thread that does this can make an attempt.
    fn can_do(&self, thread: u32, state: ThreadState) -> bool
        requires { IsState self.now.isolate state }
        ensures { result ≡ can_do thread (doing_named self.now.isolate state) (names self.now) }
    {
        match state {
            ThreadState::Ready => true,
            ThreadState::Entering(object, _) => is_unowned(&self.isolate, object),
            ThreadState::Initing(mirror) => is_open(&self.isolate, thread, mirror),
            ThreadState::Joining(other) => has_ended(&self.rows, self.count, other),
            ThreadState::Waiting(_, _)
            | ThreadState::Sending(_)
            | ThreadState::Receiving(_)
            | ThreadState::Asking
            | ThreadState::Ended => false,
        }
    }

    /// Whether the thread of a number can make an attempt; where there is none of this number, it can't.
    #[tactic(auto, unfolding(mvm_thread::specs::State::can_step), using(crate::proofs::Threads::get_named, crate::proofs::Threads::get_past))]
    pub fn can_step(&self, thread: u32) -> bool
        ensures { result ≡ can_step (names self.now) thread }
    {
        thread < self.count && self.can_do(thread, self.rows[thread as usize].state)
    }

    /// What a step of a thread came to, of a task that it left.
    #[tactic(auto, unfolding(crate::specs::Names::stepped_of))]
    pub fn stepped(&self, thread: u32) -> Stepped
        ensures { result ≡ stepped_of thread (names self.now) }
    {
        match (self.end, &self.act) {
            (Some(end), _) => Stepped::TaskEnded(end),
            (None, Some(_)) => Stepped::Acted,
            (None, None) => self.stepped_thread(thread),
        }
    }

    /// The same of a thread of a running task that wants nothing of the world outside.
    fn stepped_thread(&self, thread: u32) -> Stepped
        ensures { result ≡ of_thread thread (names self.now) (is_ended (slice_get (names self.now).threads thread)) }
    {
        if has_ended(&self.rows, self.count, thread) {
            Stepped::ThreadEnded
        } else if self.can_step(thread) {
            Stepped::Ran
        } else {
            Stepped::Blocked
        }
    }
}
