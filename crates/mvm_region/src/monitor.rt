/// The monitor of an object: which thread owns it, and how many times that thread has entered it without leaving it (Java
/// Language Specification, SE 8, 17.1).
#[derive(Clone, Copy, Debug, PartialEq, Eq)]
pub struct Monitor {
    /// The number of the thread that owns it, if one does.
    pub owner: Option<u32>,
    /// How many times the owner has entered it; 0 where nobody owns it.
    pub count: u64,
}
