use crate::key::FrameKey;

/// What a frame runs, and its pc (JVM Specification 2.5.1).
#[derive(Clone, Copy, Debug, PartialEq, Eq)]
pub struct Place {
    /// What the frame runs.
    pub key: FrameKey,
    /// The frame's pc, a place in the code of its method.
    pub pc: u32,
}
