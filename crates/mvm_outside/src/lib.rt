//! Ground: what a machine meets outside of itself, as sources that bytes come from, stores that hold files, sinks that
//! bytes go to, and gates that a worker passes at each turn.
//!
//! To the layer above it promises that the outside can neither lie unseen nor fail unseen. Where a source, a
//! store or a sink tells what it holds, each answer is about those very bytes; and each object counts its faults,
//! so that a call that answers `Failed` is one in which that count rose (or stands at the last value of a
//! u64). `read_all` reads a source to its end within a limit, and `write_all` writes all of a piece or says how
//! much of it was taken.
//!
//! There are two kinds of each. Those over memory (`MemorySource`, `MemoryStore`, `MemorySink`) tell all that
//! they hold and fail where they are told to; `NeverSource` and `NeverStore` never fail. Those over std
//! (`ReadSource`, `FolderStore`, `WriteSink`) are the edge to the real system: what the system answers is
//! trusted, and no clause says what a real file or a real terminal holds.
#![tactic(auto)]

mod file_row;
mod memory_sink;
mod memory_source;
mod memory_store;
mod real;
mod traits;
mod whole;

pub use file_row::FileRow;
pub use memory_sink::MemorySink;
pub use memory_source::{MemorySource, NeverSource};
pub use memory_store::{MemoryStore, NeverStore};
pub use real::{FolderStore, ReadSource, WriteSink};
pub use traits::{Failed, Gate, MOST_FILE_BYTES, NoGate, Sink, Source, Store, StoreFault};
pub use whole::{ReadRefusal, read_all, write_all};
