/// What a thread of an isolate asks of the machine. It waits until it has its answer, 1 or 0.
#[derive(Clone, Copy, Debug, PartialEq, Eq)]
pub enum Ask {
    /// To start the isolate of this number. The answer is 1 exactly where it never started before.
    Start(u32),
    /// To end the isolate of this number, with this status. The answer is 1 exactly where it was running.
    Halt(u32, i32),
    /// To close the link of this number on the side of the isolate that asks. The answer is 1 exactly where it was open there.
    Close(u32),
}
