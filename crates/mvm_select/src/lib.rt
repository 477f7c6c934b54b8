//! Classes: which method a name and a descriptor mean in a class, and which method a call selects (JVM Specification 5.4.3.3,
//! 5.4.3.4, 5.4.5, and 6.5 under invokevirtual, invokeinterface and invokespecial).
//!
//! To the layers above it promises: the two finds and the three selections answer exactly what their definitions say, take no
//! memory, and ask nothing of their arguments. The definitions go over a class's lists; [`overriding_law`], [`most_law`],
//! [`select_law`] and [`resolution_law`] say what they mean for a class with all from which it inherits, in the standard's terms.
#![tactic(auto)]

mod laws;
mod methods;
mod most_specific;
mod names;
mod overriding;
mod resolution;
mod selection;
mod told;

pub use laws::{most_law, named_law, overriding_law, resolution_law, select_law, whole_law};
pub use resolution::{find_interface_method, find_method};
pub use selection::{select, select_from, select_interface};
