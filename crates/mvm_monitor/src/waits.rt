ghost use Rattle.std.specs.Prelude.{◌≡◌, ◌≢◌, ◌<◌, ◌++◌, [], ◌∷◌, length, All, IfOk, IfSome, IfNone, None, Some};
ghost use Rattle.std.specs.List.{remove, HoldsAt};
ghost use Rattle.mvm_monitor.specs.Waits.{is_awake, longest, may_wait, woken, Waits};

use mvm_base::OutOfMemory;
use std::alloc::Global;
use std::marker::Model;

/// A thread that waits on an object.
#[derive(Clone, Copy, Debug, PartialEq, Eq)]
pub struct Waiter {
    /// The number of the object.
    pub object: u32,
    /// The number of the thread.
    pub thread: u32,
}

/// The threads that wait, the one that waits longest first. A thread waits on one object at most.
#[derive(Debug, Drop)]
pub struct WaitList {
    threads: u32,
    waiters: Vec<Waiter>,
}

impl Model for WaitList {
    ghost use Rattle.mvm_monitor.specs.Waits.{IsKept, Waits};
    ghost use Rattle.std.specs.Prelude.{vec_capacity};

    ghost Value = { Waits };

    ghost view = { λ w. record { threads = w.threads; waiters = w.waiters.items } };

    ghost invariant = { λ w. IsKept w.threads w.waiters.items (vec_capacity w.waiters) };
}

impl WaitList {
    /// A list for so many threads; none waits yet. This takes all the memory that the list ever needs.
    pub fn new(alloc: Global, threads: u32) -> Result<WaitList, OutOfMemory>
        ensures { IfOk result (λ waits. waits ≡ record { threads = threads; waiters = [] }) }
    {
        let waiters = Vec::with_capacity(alloc, threads as usize)?;
        Ok(WaitList { threads, waiters })
    }

    /// Whether a thread may begin to wait: it is one of those that there can be, and does not wait yet.
    pub fn may_wait(&self, thread: u32) -> bool
        ensures { result ≡ may_wait thread self.now }
    {
        thread < self.threads && is_awake(&self.waiters, thread)
    }

    /// A thread that does not wait yet begins to wait on an object, behind all others. It takes no memory.
    pub fn add(&mut self, object: u32, thread: u32)
        requires known { thread < self.old.threads }
        requires awake { All (λ waiter. waiter.thread ≢ thread) self.old.waiters }
        ensures { self.new ≡ record self.old { waiters = self.old.waiters ++ record { object = object; thread = thread } ∷ [] } }
    {
        match self.waiters.push(Waiter { object, thread }) {
            Ok(()) => {}
            Err(_) => unreachable!(),
        }
    }

    /// Takes out the thread that waits longest on an object, or answers `None` where none waits on it (Java Language
    /// Specification 17.2.2). It takes no memory.
    pub fn notify(&mut self, object: u32) -> Option<u32>
        ensures thread { result ≡ longest object self.old.waiters }
        ensures others { self.new ≡ record self.old { waiters = woken object self.old.waiters } }
    {
        let place = place_of(&self.waiters, object)?;
        let waiter = self.waiters.remove(place);
        Some(waiter.thread)
    }
}

/// The place of the first that waits on an object.
fn place_of(waiters: &[Waiter], object: u32) -> Option<usize>
    ensures found { IfSome result (λ place. (place < length waiters.now) × (remove waiters.now place ≡ woken object waiters.now)) }
    ensures thread { IfSome result (λ place. HoldsAt (λ waiter. Some waiter.thread ≡ longest object waiters.now) waiters.now place) }
    ensures none { IfNone result ((longest object waiters.now ≡ None) × (woken object waiters.now ≡ waiters.now)) }
{
    for (place, waiter) in waiters.iter().enumerate() {
        if waiter.object == object {
            return Some(place);
        }
    }
    None
}

/// Whether a thread is none of those that wait.
fn is_awake(waiters: &[Waiter], thread: u32) -> bool
    ensures { result ≡ is_awake thread waiters.now }
{
    for waiter in waiters {
        if waiter.thread == thread {
            return false;
        }
    }
    true
}
