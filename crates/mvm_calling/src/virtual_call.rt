//! What is kept of a call with a receiver.

use crate::static_call::StaticCall;

/// A call of a method that was selected for receivers of one class.
#[derive(Debug, Drop)]
pub(crate) struct VirtualCall {
    /// The number of the class of the receiver.
    pub(crate) receiver: u32,
    /// The call of the method that is selected.
    pub(crate) call: StaticCall,
}
