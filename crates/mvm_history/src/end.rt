/// A limit that ends an isolate where it is passed. Want of heap or of frames is thrown in the thread and is not among them.
#[derive(Clone, Copy, Debug, PartialEq, Eq)]
pub enum LimitKind {
    /// The attempts that its threads made.
    Steps,
    /// The threads that it started.
    Threads,
    /// The bytes that it printed.
    Output,
    /// The entries of its history.
    Log,
    /// The stamp of an entry.
    Clock,
    /// The bytes of the messages that it sent and received.
    Messages,
}

/// How an isolate ended.
#[derive(Clone, Copy, Debug, PartialEq, Eq)]
pub enum End {
    /// It ended itself with this status. Where all its threads ended, it is 1 if thread 0 ended by an exception that it did not
    /// catch, else 0.
    Exit(i32),
    /// It would have passed this limit.
    Limit(LimitKind),
    /// Another isolate ended it, or it ended itself by an ask.
    Halted {
        /// The number of the isolate that asked.
        by: u32,
        /// The status that was asked for.
        status: i32,
    },
    /// No thread of a running isolate could step any more.
    Stalled,
    /// It was never started.
    NeverStarted,
}
