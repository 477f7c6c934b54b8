//! Step: when an object is an instance of a type, what an array may hold, what catches an object, and on which class a method is selected (JVM
//! Specification 2.10; 6.5, under instanceof, aastore and invokevirtual).
//!
//! To the layers above it promises: each call answers exactly what its definition says of the isolate by names. [`is_of_class`], [`is_thrown_as`] and
//! [`receiver_class`] take no memory; [`is_of_shape`] and [`is_element`] look classes up by name where both types are arrays of objects, and may
//! run out of memory. No call changes the isolate. [`catches`] and [`is_of_array`] are the same for a type and for an array type by its parts.
#![tactic(auto)]

mod arrays;
mod bases;
mod instances;
mod looked;
mod receivers;

pub use instances::{is_element, is_of_array, is_of_class, is_of_shape};
pub use receivers::{catches, is_thrown_as, receiver_class};
