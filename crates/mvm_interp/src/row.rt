use mvm_frame::Stack;
use mvm_object::ThreadState;

/// A thread of an isolate, or the place for one.
#[derive(Debug, Drop)]
pub struct ThreadRow {
    /// What the thread does, or what it waits for.
    pub state: ThreadState,
    /// Its frames.
    pub stack: Stack,
    /// The number of its object, if it has one.
    pub object: Option<u32>,
}
