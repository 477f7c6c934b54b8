//! Ground: lists, names and lines that contracts see as plain lists, a cursor over bytes, modified UTF-8, the names
//! of classes, descriptors, a counter of steps, the kinds of values, and the words that contracts share.
//!
//! To the layers above it promises: each of these types is, to a clause, the value that it stands for and
//! nothing else (no capacity, no pointer, no place in a buffer), and each call says exactly what it does to that
//! value. Only a call whose `Result` can hold an `AllocError`, or a fault `OutOfMemory`, takes memory, and where
//! it is refused the value is as before.
//!
//! Of descriptors (JVM Specification 4.3.2 and 4.3.3) it promises: what is parsed is spelled so, what is spelled
//! so is parsed unless memory runs out, and any other text is refused with the one fault that it has: it is empty, a
//! descriptor stands at its front and more follows, it ends inside one, or at a place, which is told, it stops being
//! the beginning of one. `F` and `D` there are a fault of their own, without the place, since this machine does
//! without them. A long takes two slots, any other type one.
#![tactic(auto)]

mod class_name;
mod cursor;
mod descriptor;
mod job;
mod laws;
mod line;
mod list;
mod memory;
mod modified_utf8;
mod name;
mod steps;
mod value;

pub use class_name::is_binary_name;
pub use cursor::Cursor;
pub use descriptor::{Base, DescFault, FieldShape, MethodShape, parse_field, parse_method};
pub use job::Job;
pub use laws::descriptor_law;
pub use line::Line;
pub use list::List;
pub use memory::OutOfMemory;
pub use modified_utf8::{Utf8Fault, decode_mutf8, encode_mutf8};
pub use name::Name;
pub use steps::Steps;
pub use value::{Kind, Word};
