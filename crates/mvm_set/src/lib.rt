//! Classes: the classes of a set by name, what a class inherits from, the search for fields, access, and the order in which
//! superinterfaces are initialised (JVM Specification 5.3, 5.4, 5.5).
//!
//! To the layers above it promises: a [`Class`] is, to every clause, plain lists of files ([`Lineage`]); nobody learns that files
//! are shared. [`Class::over`] puts a class together from its file and the classes above it, and [`class_law`] says that this
//! is the class of the whole tree. The calls on classes answer exactly what their definitions say, and take no memory;
//! [`walk_law`] and [`subclass_law`] say that what they find in a class's walk is what the rules over the tree find, and
//! [`superinterfaces_law`] which superinterfaces a class lists, and in which order.
#![tactic(auto)]

mod access;
mod class;
mod fault;
mod field_places;
mod fields;
mod found;
mod index;
mod join;
mod laws;
mod names;
mod own;
mod set;
mod shared;

pub use access::{accessible, is_reachable, is_subclass};
pub use class::{Class, Lineage};
pub use fault::LinkFault;
pub use fields::find_field;
pub use found::{Found, MethodAt};
pub use laws::{checked_law, class_law, subclass_law, superinterfaces_law, walk_law};
pub use names::{is_called, is_interface, is_same, is_same_package, own_name};
pub use own::{Own, OwnWalk};
pub use set::{ClassSet, SetRow};
pub use shared::Shared;
