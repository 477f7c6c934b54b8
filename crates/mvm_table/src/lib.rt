//! Classes: the classes of sets by name, loaded with all that they inherit from, and linked; and what the entries of their constant pools
//! stand for (JVM Specification 5.3, 5.4.1, 5.4.3).
//!
//! To the layers above it promises: [`Table::class`] answers what `load` of `specs/Load.antt` gives for a name on the files of its set,
//! the class or the first fault, unless memory runs out; and each class that it gives is the one that loading gives for its own
//! name, as `IsLoaded` of `specs/Loads.antt` says. [`Table::linked`] answers, for such a class, what `linked` of `specs/Link.antt`
//! gives for its name; and [`Table::resolve`] what `resolve` of `specs/Resolve.antt` gives for an entry of its constant pool. A class that
//! [`Table::shelve`] put on the shelf of its set stands there for all later calls, and costs one step; refused, it puts none. The built-in
//! classes stand on each shelf from the time when a table is made.
//! Nobody learns that a file or a class is shared.
#![tactic(auto)]

mod begun;
mod built_in;
mod fault;
mod find;
mod holders;
mod link;
mod load;
mod members;
mod name_map;
mod reference;
mod resolve;
mod resolved;
mod shelf;
mod slots;
mod source;
mod sources;
mod table;

pub use fault::LoadFault;
pub use resolved::{FieldAt, Resolved};
pub use source::SourceRow;
pub use table::Table;
