/// What a thread does, or what it waits for.
#[derive(Clone, Copy, Debug, PartialEq, Eq)]
pub enum ThreadState {
    /// It makes attempts.
    Ready,
    /// It waits for the monitor of an object: to enter it so many times at once, or, where that is 0, to make an attempt anew.
    Entering(u32, u64),
    /// It waits on an object, whose monitor it had entered so many times.
    Waiting(u32, u64),
    /// It waits for another thread to initialise the class of this number (JVM Specification 5.5).
    Initing(u32),
    /// It waits for the thread of this number to end.
    Joining(u32),
    /// It waits for the other end of the link of this number to receive.
    Sending(u32),
    /// It waits for the other end of the link of this number to send.
    Receiving(u32),
    /// It waits for the machine's answer.
    Asking,
    /// It has ended.
    Ended,
}
