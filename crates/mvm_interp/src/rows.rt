//! What is asked of the threads of an isolate, and done to them.

ghost use Rattle.std.specs.Prelude.{◌≡◌, ◌≤◌, ◌<◌, ℕ, length, map, slice_get};
ghost use Rattle.std.specs.List.{list_all};
ghost use Rattle.mvm_isolate.specs.Numbered.{Numbered};
ghost use Rattle.mvm_thread.specs.State.{is_ended};
ghost use Rattle.mvm_thread.specs.Step.{all_ended, wake_in, wake_on};
ghost use Rattle.mvm_interp.specs.Names.{is_over, threads_named};
ghost use Rattle.mvm_interp.specs.Sound.{IsTask};
ghost use Rattle.mvm_interp.specs.Waking.{awake_on_state, awake_row, awake_state, woken_at};

use crate::row::ThreadRow;
use mvm_object::ThreadState;

/// Whether a thread that does this has ended.
pub(crate) fn is_over(state: ThreadState) -> bool
    ensures { result ≡ is_over state }
{
    match state {
        ThreadState::Ended => true,
        ThreadState::Ready
        | ThreadState::Entering(_, _)
        | ThreadState::Waiting(_, _)
        | ThreadState::Initing(_)
        | ThreadState::Joining(_)
        | ThreadState::Sending(_)
        | ThreadState::Receiving(_)
        | ThreadState::Asking => false,
    }
}

/// Whether there is a thread of this number that has ended.
#[tactic(auto, using(crate::proofs::Threads::ended_named, crate::proofs::Threads::ended_past))]
pub(crate) fn has_ended(rows: &[ThreadRow], count: u32, thread: u32) -> bool
    requires { count ≤ length rows.now }
    ensures { (n : Numbered) → result ≡ is_ended (slice_get (threads_named n count rows.now) thread) }
{
    thread < count && is_over(rows[thread as usize].state)
}

/// Whether all of these threads have ended.
#[tactic(auto, using(crate::proofs::Threads::over_named))]
fn all_over(rows: &[ThreadRow]) -> bool
    ensures { result ≡ list_all (λ row. is_over row.state) rows.now }
{
    for row in rows {
        if !is_over(row.state) {
            return false;
        }
    }
    true
}

/// Whether all threads have ended.
#[tactic(auto, using(crate::proofs::Threads::over_named))]
pub(crate) fn all_ended(rows: &[ThreadRow], count: u32) -> bool
    requires { count ≤ length rows.now }
    ensures { (n : Numbered) → result ≡ all_ended (threads_named n count rows.now) }
{
    all_over(&rows[..count as usize])
}

/// What a thread does that is woken: one that waits on an object waits for its monitor from then on.
fn awake(state: ThreadState) -> ThreadState
    ensures { result ≡ awake_state state }
{
    match state {
        ThreadState::Waiting(object, times) => ThreadState::Entering(object, times),
        ThreadState::Ready
        | ThreadState::Entering(_, _)
        | ThreadState::Initing(_)
        | ThreadState::Joining(_)
        | ThreadState::Sending(_)
        | ThreadState::Receiving(_)
        | ThreadState::Asking
        | ThreadState::Ended => state,
    }
}

/// Wakes a thread.
fn wake(rows: &mut [ThreadRow], thread: u32)
    requires { thread < length rows.old }
    ensures { rows.new ≡ woken_at thread (slice_get rows.old thread) rows.old }
{
    let row = &mut rows[thread as usize];
    row.state = awake(row.state);
}

/// What a thread does where all are woken that wait on an object.
fn awake_on(object: u32, state: ThreadState) -> ThreadState
    ensures { result ≡ awake_on_state object state }
{
    match state {
        ThreadState::Waiting(other, _) if other == object => awake(state),
        _ => state,
    }
}

/// Wakes all threads that wait on an object.
fn wake_all(rows: &mut [ThreadRow], object: u32)
    ensures { rows.new ≡ map (awake_row object) rows.old }
{
    for place in 0..rows.len() {
        let row = &mut rows[place];
        row.state = awake_on(object, row.state);
    }
}

/// Wakes the thread of a number, if there is one.
#[tactic(auto, using(crate::proofs::Waking::woken_named, crate::proofs::Waking::unwoken_named, crate::proofs::Waking::woken_keeps))]
pub(crate) fn wake_thread(rows: &mut [ThreadRow], count: u32, thread: u32)
    requires { count ≤ length rows.old }
    ensures named { (n : Numbered) → threads_named n count rows.new ≡ wake_in thread (slice_get (threads_named n count rows.old) thread) (threads_named n count rows.old) }
    ensures all { length rows.new ≡ length rows.old }
    ensures kept { (n : Numbered) (ended steps : ℕ) → IsTask n rows.old count ended steps → IsTask n rows.new count ended steps }
{
    if thread < count {
        wake(rows, thread);
    }
}

/// Wakes all threads that wait on an object.
#[tactic(auto, using(crate::proofs::Waking::all_named, crate::proofs::Waking::all_keep))]
pub(crate) fn wake_threads(rows: &mut [ThreadRow], object: u32)
    ensures named { (n : Numbered) (count : ℕ) → threads_named n count rows.new ≡ map (wake_on object) (threads_named n count rows.old) }
    ensures all { length rows.new ≡ length rows.old }
    ensures kept { (n : Numbered) (count ended steps : ℕ) → IsTask n rows.old count ended steps → IsTask n rows.new count ended steps }
{
    wake_all(rows, object);
}
