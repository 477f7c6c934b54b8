/// A thread that ended by an object that nothing caught, and of which nobody has read yet what the object is.
#[derive(Clone, Copy, Debug, PartialEq, Eq)]
pub struct Unread {
    /// The number of the thread.
    pub thread: u32,
    /// The number of the object.
    pub object: u32,
}
