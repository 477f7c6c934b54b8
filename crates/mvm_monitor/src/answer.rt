use mvm_region::Monitor;

/// What became of a thread that wants a monitor.
#[derive(Clone, Copy, Debug, PartialEq, Eq)]
pub enum Enter {
    /// It entered; this is the monitor now.
    Entered(Monitor),
    /// Another thread owns the monitor.
    Blocked,
}

/// This thread does not own the monitor.
#[derive(Clone, Copy, Debug, PartialEq, Eq)]
pub struct NotOwner;
