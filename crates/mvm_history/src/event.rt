use crate::ask::Ask;
use crate::message::Message;

/// The Ask that another entry comes from.
#[derive(Clone, Copy, Debug, PartialEq, Eq)]
pub struct Cause {
    /// The number of the isolate that asked.
    pub isolate: u32,
    /// The stamp of the Ask in that isolate's history.
    pub stamp: u64,
}

/// What happened to an isolate.
#[derive(Debug, Drop)]
pub enum Event {
    /// It was started. This is the first entry of a history, and no other.
    Started {
        /// The Ask that started it; none where it is started at once.
        by: Option<Cause>,
        /// The greatest last stamp of all isolates; 0 where it is started at once.
        seen: u64,
    },
    /// A thread of it had a turn.
    Turn {
        /// The number of the thread.
        thread: u32,
        /// How many attempts it made, at least one.
        steps: u32,
    },
    /// The last attempt of the turn before sends a message.
    Offer {
        /// The number of the link.
        link: u32,
        /// The number of the thread that sends.
        thread: u32,
        /// What is sent, as it was when it was sent.
        message: Message,
    },
    /// A thread that waited for a message has one.
    Receipt {
        /// The number of the link.
        link: u32,
        /// The number of the thread that receives.
        thread: u32,
        /// What it receives.
        message: Message,
        /// The stamp of the Offer.
        sent: u64,
    },
    /// A thread that sent learns that its message was received.
    Took {
        /// The number of the link.
        link: u32,
        /// The number of the thread that sent.
        thread: u32,
        /// The stamp of the Receipt.
        received: u64,
    },
    /// A link is closed on this side.
    Closed {
        /// The number of the link.
        link: u32,
        /// The last stamp of the other side.
        seen: u64,
    },
    /// The last attempt of the turn before asks the machine.
    Ask {
        /// The number of the thread that asks.
        thread: u32,
        /// What it asks.
        ask: Ask,
    },
    /// A thread that asked has its answer.
    Answer {
        /// The number of the thread.
        thread: u32,
        /// The answer, 1 or 0.
        value: i32,
        /// The last stamp of the isolate that was asked for, or of the other side of the link.
        seen: u64,
    },
    /// It was ended by an Ask.
    Halted {
        /// The Ask.
        by: Cause,
        /// The status that was asked for.
        status: i32,
    },
    /// It ended since no thread of any isolate could step any more.
    Stalled {
        /// The greatest last stamp of all isolates.
        seen: u64,
    },
}
