use mvm_base::Name;

/// An exception that nothing caught.
#[derive(Debug, Drop)]
pub struct Uncaught {
    /// The number of the thread that it ended.
    pub thread: u32,
    /// The name of the exception's class.
    pub class: Name,
    /// Its message, if it has one.
    pub message: Option<Name>,
}
