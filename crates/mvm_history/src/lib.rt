//! Memory: what an isolate is launched with, the limits it runs under, what it sends and asks, how it ends, and its history.
//!
//! To the layers above it promises: [`Limits::defaults`] are the limits of an isolate for which none are named, and
//! [`Limits::are_allowed`] tells exactly whether each limit is in its range. A [`History`] is, to a clause, the list of its entries; an
//! entry that is added stands at the end, and where memory for it is refused, the history is as before. [`merge`] gives exactly where all
//! entries of some histories stand, by stamp, then by the number of the isolate, then by place, and [`text`] an entry as text.
//!
//! The rest are plain values, with their ranges in their documents. [`order_law`], [`stamp_law`] and [`exchange_law`] are laws over
//! the definitions in `specs/`, for the layers that replay histories.
#![tactic(auto)]

mod ask;
mod end;
mod entry;
mod event;
mod history;
mod launch;
mod laws;
mod limits;
mod merging;
mod message;
mod texts;
#[cfg(test)]
mod worked_rows;

pub use ask::Ask;
pub use end::{End, LimitKind};
pub use entry::Entry;
pub use event::{Cause, Event};
pub use history::History;
pub use launch::{LARGEST_QUANTUM, Launch, LinkRow, MOST_ISOLATES, MOST_LINKS};
pub use laws::{exchange_law, order_law, stamp_law};
pub use limits::{
    CLOCK, DEFAULT_LOG, DEFAULT_OUTPUT, DEFAULT_STEPS, DEFAULT_THREADS, DEFAULT_WORDS, FRAMES,
    Limits, MESSAGE_BYTES, MOST_LOG, MOST_OUTPUT, MOST_STEPS, MOST_THREADS, MOST_WORDS,
};
pub use merging::{Placed, merge};
pub use message::{MOST_ELEMENTS, Message};
pub use texts::text;
