//! The second part of a step: what an attempt left to be done for the isolate as a whole.

ghost use Rattle.std.specs.Prelude.{◌≡◌, ◌==◌, None};
ghost use Rattle.std.specs.List.{list_any};
ghost use Rattle.mvm_isolate.specs.Numbered.{named};
ghost use Rattle.mvm_isolate.specs.Sound.{Grows};
ghost use Rattle.mvm_object.specs.Going.{ends_uncaught};
ghost use Rattle.mvm_invoke.specs.Leaving.{after_named, MayBegin};
ghost use Rattle.mvm_thread.specs.Step.{all_notified, ended_by, notified, notified_by, status_of, unless_over};
ghost use Rattle.mvm_interp.specs.Finishing.{finished, is_first, others, with_waiting};
ghost use Rattle.mvm_interp.specs.Names.{names};

use crate::block::Uncaught;
use crate::rows::{all_ended, wake_thread, wake_threads};
use crate::task_state::TaskState;
use crate::unread::Unread;
use mvm_history::End;
use mvm_invoke::After;
use mvm_isolate::Isolate;

/// Whether the first thread is among those that ended by what they did not catch.
fn has_first(uncaught: &[Uncaught]) -> bool
    ensures { result ≡ list_any (λ one. one.thread == 0) uncaught.now }
{
    for one in uncaught {
        if one.thread == 0 {
            return true;
        }
    }
    false
}

/// Whether it is the first thread that ended so.
fn is_first(unread: Option<Unread>) -> bool
    ensures { result ≡ is_first unread }
{
    match unread {
        Some(unread) => unread.thread == 0,
        None => false,
    }
}

/// No thread waits on an object any more.
fn forget_waiters(isolate: &mut Isolate, object: u32)
    ensures named { named isolate.new ≡ with_waiting (others object (named isolate.old).waits.waiters) (named isolate.old) }
    ensures links { isolate.new.env.links ≡ isolate.old.env.links }
    ensures grows { Grows isolate.old isolate.new }
{
    'waiters: while isolate.notify(object).is_some() {}
}

impl TaskState {
    /// The isolate ends; nothing is done any more about what a thread wanted.
    pub(crate) fn end_by(&mut self, end: End)
        ensures names { names self.new ≡ ended_by end (names self.old) }
        ensures files { self.new.isolate.files ≡ self.old.isolate.files }
    {
        self.act = None;
        self.end = Some(end);
    }

    /// The status of an isolate of which all threads have ended.
    #[tactic(auto, using(crate::proofs::Dying::first_named))]
    fn status(&self) -> i32
        ensures { result ≡ status_of (names self.now).uncaught }
    {
        if has_first(self.uncaught.as_slice()) || is_first(self.unread) {
            1
        } else {
            0
        }
    }

    /// The isolate ends where all its threads have ended.
    fn end_if_over(&mut self)
        ensures names { names self.new ≡ unless_over (names self.old) }
        ensures files { self.new.isolate.files ≡ self.old.isolate.files }
    {
        if all_ended(&self.rows, self.count) {
            let status = self.status();
            self.end_by(End::Exit(status));
        }
    }

    /// Wakes the thread that waits longest on an object (Java Language Specification, SE 8, 17.2.2).
    fn notify(&mut self, object: u32)
        requires { self.old.unread ≡ None }
        ensures names { names self.new ≡ notified object (names self.old) }
        ensures files { self.new.isolate.files ≡ self.old.isolate.files }
    {
        if let Some(thread) = self.isolate.notify(object) {
            wake_thread(&mut self.rows, self.count, thread);
        }
    }

    /// Wakes all threads that wait on an object.
    fn notify_all(&mut self, object: u32)
        requires { self.old.unread ≡ None }
        ensures names { names self.new ≡ all_notified object (names self.old) }
        ensures files { self.new.isolate.files ≡ self.old.isolate.files }
    {
        forget_waiters(&mut self.isolate, object);
        wake_threads(&mut self.rows, object);
    }

    /// Wakes one thread that waits on an object, or all.
    fn wake_by(&mut self, object: u32, all: bool)
        requires { self.old.unread ≡ None }
        ensures names { names self.new ≡ notified_by all object (names self.old) }
        ensures files { self.new.isolate.files ≡ self.old.isolate.files }
    {
        if all {
            self.notify_all(object);
        } else {
            self.notify(object);
        }
    }

    /// A thread ends by an object that nothing caught.
    #[tactic(auto, unfolding(crate::specs::Finishing::finished))]
    fn end_uncaught(&mut self, thread: u32, object: u32)
        requires { self.old.unread ≡ None }
        ensures names { names self.new ≡ finished thread (ends_uncaught object) (names self.old) }
        ensures files { self.new.isolate.files ≡ self.old.isolate.files }
    {
        self.unread = Some(Unread { thread, object });
        self.end_if_over();
    }

    /// What the attempt of a thread left to be done is done.
    #[tactic(auto, unfolding(crate::specs::Finishing::finished))]
    pub(crate) fn finish(&mut self, thread: u32, after: After)
        requires begins { MayBegin self.old.count self.old.isolate.env.launch.limits.threads after }
        requires read { self.old.unread ≡ None }
        ensures names { names self.new ≡ finished thread (after_named self.old.isolate after) (names self.old) }
        ensures files { self.new.isolate.files ≡ self.old.isolate.files }
    {
        match after {
            After::Does(_) => self.end_if_over(),
            After::Starts(object) => self.start(object),
            After::Notifies(object, all) => self.wake_by(object, all),
            After::Acts(act, _) => self.act = Some(act),
            After::EndsUncaught(object) => self.end_uncaught(thread, object),
            After::Exits(status) => self.end_by(End::Exit(status)),
            After::Limited(kind) => self.end_by(End::Limit(kind)),
        }
    }
}
