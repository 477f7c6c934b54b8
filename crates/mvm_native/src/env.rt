use mvm_base::{Line, List};
use mvm_heap::Heap;
use mvm_history::Launch;
use mvm_monitor::WaitList;
use std::alloc::Global;

/// How a link stands on the side of one isolate.
#[derive(Clone, Copy, Debug, PartialEq, Eq)]
pub struct LinkUse {
    /// Whether it is closed on this side.
    pub closed: bool,
    /// The thread of this isolate that is sending on it, if one is.
    pub sender: Option<u32>,
    /// The thread of this isolate that is receiving on it, if one is.
    pub receiver: Option<u32>,
}

/// What a native method works on: an isolate, and which of its threads calls.
#[derive(Debug, Drop)]
pub struct Env {
    /// Where the memory comes from that a call takes.
    pub alloc: Global,
    /// The objects of the isolate, their monitors and its interned texts.
    pub heap: Heap,
    /// What the isolate has printed, in UTF-8.
    pub output: Line,
    /// The threads that wait on objects.
    pub waits: WaitList,
    /// What the isolate was made from.
    pub launch: Launch,
    /// The number of the thread that calls.
    pub thread: u32,
    /// How each link of the launch stands on this side, by its number.
    pub links: List<LinkUse>,
}
