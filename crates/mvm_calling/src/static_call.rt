//! What is kept of a call of a static method.

use mvm_base::{Kind, List};
use mvm_frame::FrameKey;
use mvm_invoke::Size;

/// A call of a static method that has code and is not synchronized.
#[derive(Debug, Drop)]
pub(crate) struct StaticCall {
    /// The number of the class whose constant pool names the method.
    pub(crate) home: u32,
    /// The index at which it does.
    pub(crate) index: u16,
    /// The key of a frame of the method.
    pub(crate) key: FrameKey,
    /// What its code has.
    pub(crate) size: Size,
    /// The kinds of its arguments.
    pub(crate) kinds: List<Kind>,
    /// How many slots they take.
    pub(crate) slots: u16,
}
