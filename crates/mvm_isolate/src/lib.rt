//! Step: what the threads of an isolate share, by names: its heap, what it keeps of its classes, and its output.
//!
//! To the layers above it promises: an [`Isolate`] keeps numbers (of classes, of array classes, of slots), and contracts see what they stand for by one
//! function, `named`: the isolate by names. Each call does to that exactly what a definition of `specs/` says. A number that a call gives is that of one
//! class, and stays so (`Grows`); a class that was loaded is the one that a look-up of its name gives. After a refusal the isolate by names is as before.
//! [`Stop`] is why an attempt does not do what it was to do; the faults of loading, linking, resolution and selection are turned into it as the definition
//! has them. `specs/` has besides the definitions that a step of a thread is made of, below its frames.
#![tactic(auto)]

mod class_objects;
mod faults;
mod initialise;
mod isolate;
mod known;
mod load;
mod natives;
mod objects;
mod statics;
mod stop;
mod texts;
mod type_at;
mod types;

pub use isolate::Isolate;
pub use statics::{items_by, narrowed};
pub use stop::Stop;
pub use type_at::TypeAt;
pub use types::items_of;
