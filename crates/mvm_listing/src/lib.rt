//! Files: class files as text: what the lines of a text make, one behind the other, and the lines that a class file is written as.
//!
//! To the layers above it promises the definitions of both ways, and [`class_law`]: the text of a class file is assembled to it again. It
//! has the tests of a line that hang on what stands before it: where it may stand ([`order`]), and whether its numbers fit ([`range`]).
#![tactic(auto)]

mod fault;
mod laws;
pub mod order;
mod phase;
mod piece;
pub mod range;

pub use fault::{AsmFault, StepFault};
pub use laws::{class_law, mnemonic_law, usual_law};
pub use phase::Phase;
pub use piece::{Catching, Piece, Placed};
