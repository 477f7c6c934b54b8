use mvm_history::LimitKind;
use mvm_native::Act;
use mvm_object::ThreadState;

/// What an attempt is told of its isolate, besides what the isolate keeps itself.
#[derive(Clone, Copy, Debug, PartialEq, Eq)]
pub struct Told {
    /// The number of the thread, below 64.
    pub thread: u32,
    /// How many threads there are: at most 64.
    pub threads: u32,
    /// Which of them have ended: bit n stands for thread n.
    pub ended: u64,
    /// The thread's own object, if it has one.
    pub object: Option<u32>,
}

/// What an attempt leaves to be done by the isolate as a whole.
#[derive(Debug, Drop)]
pub enum After {
    /// Nothing but that the thread does this from now on.
    Does(ThreadState),
    /// The thread goes on, and another one begins, whose object is this.
    Starts(u32),
    /// The thread goes on, and of those that wait on an object one, or all, are woken.
    Notifies(u32, bool),
    /// The thread waits for what it wants of the world outside its isolate.
    Acts(Act, ThreadState),
    /// The thread ends by an object that nothing caught.
    EndsUncaught(u32),
    /// The isolate ends with a status.
    Exits(i32),
    /// The isolate ends by a limit.
    Limited(LimitKind),
}

/// What an attempt leaves, besides its isolate and its frames.
#[derive(Debug, Drop)]
pub struct Left {
    /// The thread's own object, if it has one.
    pub object: Option<u32>,
    /// What is left to be done.
    pub after: After,
}
