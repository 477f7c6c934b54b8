use mvm_base::{Line, List};

/// A file of a store in memory: its name and its bytes.
#[derive(Debug, Drop)]
pub struct FileRow {
    pub name: Line,
    pub bytes: List<u8>,
}
