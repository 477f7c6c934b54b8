//! Files: class files both ways (JVM Specification, chapter 4).
//!
//! To the layers above it promises: [`read_class`] answers `Ok` exactly for the bytes that `Reads` of `specs/Reading.antt`
//! admits, with the parts that they read as, and for all others the first fault, `fault_of`, unless memory runs out.
//! [`ClassFile::parts`] hands on what every class file keeps, so that no layer asks for it again. [`write_class`] gives the
//! bytes `written` of `specs/Writing.antt`, which read as the class again, and [`ClassFile::from_parts`] answers what reading
//! the written form of its parts answers. [`reading_law`] says what holds of all bytes.
#![tactic(auto)]

mod class_file;
mod counts_fit;
mod entries;
mod laws;
mod members;
mod read;
mod write;
mod write_numbers;

pub use class_file::ClassFile;
pub use laws::reading_law;
pub use mvm_layout::{ClassFault, Code, Item, Member, Parts, Row};
pub use read::{read_class, read_uncounted};
pub use write::write_class;
