use crate::event::Event;

/// An event of an isolate, with its stamp.
#[derive(Debug, Drop)]
pub struct Entry {
    /// The stamp: greater than those of the entries before, and than that of what the event names or has seen.
    pub stamp: u64,
    /// What happened.
    pub what: Event,
}
