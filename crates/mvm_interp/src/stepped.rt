use mvm_history::End;

/// What one attempt of a thread came to: the first of these that applies, from below.
#[derive(Clone, Copy, Debug, PartialEq, Eq)]
pub enum Stepped {
    /// The thread can make another attempt.
    Ran,
    /// The thread waits.
    Blocked,
    /// The thread has ended.
    ThreadEnded,
    /// A thread wants something of the world outside its isolate, which the task keeps.
    Acted,
    /// The isolate has ended.
    TaskEnded(End),
}
