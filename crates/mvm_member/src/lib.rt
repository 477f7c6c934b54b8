//! Step: the members that references mean, by names, and where their values and code stand (JVM Specification 4.5, 4.6, 5.4.3).
//!
//! To the layers above it promises: [`field_named`] and [`method_named`] say which member was resolved or selected, by the name of the class
//! that declares it, its own name and its descriptor ([`MemberName`]). [`place_of`] is where an object has the value of an instance field,
//! [`field_count`] how many fields it has, [`static_place`] the slot of a static field, [`method_place`] the place of a method in its file, and
//! [`method`] the method of a place. Each answers exactly what its definition says of plain lists of files, asks nothing of its class, and takes no
//! memory. [`place_law`] says that the place of a name and descriptor gives the method that is declared.
#![tactic(auto)]

mod count;
mod find;
mod laws;
mod methods;
mod named;
mod places;

pub use laws::place_law;
pub use methods::{method, method_declared, method_place};
pub use named::{MemberName, field_named, method_named};
pub use places::{field_count, instance_fields, place_of, static_place};
