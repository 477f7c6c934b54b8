//! Memory: what an isolate keeps of each class: how far its initialisation is, its static fields, and its class object; and of each array
//! class: its class object.
//!
//! To the layer above it promises: [`Mirrors`] are the classes that were added, numbered from 0 in the order in which their names were
//! first added, and three maps by name: the state of initialisation of a class, the values of its static fields by name and
//! descriptor, and the number of its class object. A class that was never added stands in these maps with what it begins with, so
//! adding it changes none of them. A write changes one entry of one map. [`Mirrors::begin`] decides who initialises a class (JVM
//! Specification, SE 8, 5.5).
//!
//! [`Arrays`] are the array classes that were added, numbered from 0 in the order in which they were first added, and one map by shape: the
//! number of the class object of an array class. An array class that was never added has none there. Only [`Mirrors::add`],
//! [`Arrays::add`] and [`copy_shape`] take memory, and where one is refused all is as before.
//!
//! [`slot_law`] says that the slot of a static field, found by its name among the static fields, is the number of static fields that stand before
//! it in its file; [`number_law`] that a number stays that of its class, or of its array class; [`shape_law`] that the test of two shapes says
//! whether they are one.
#![tactic(auto)]

mod arrays;
mod change;
mod laws;
mod mirror;
mod mirrors;
mod shape_numbers;
mod shapes;
mod state;

pub use arrays::{ArrayRow, Arrays};
pub use laws::{number_law, shape_law, slot_law};
pub use mirrors::Mirrors;
pub use shapes::copy_shape;
pub use state::{Begin, InitState};
