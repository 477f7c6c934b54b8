//! Step: the frames of one thread (JVM Specification 2.6), with their local variables and operand stacks.
//!
//! To the layers above it promises: contracts see a [`Stack`] as a list of frames, the top one first, each with its key, its
//! pc, its local variables and its operands slot by slot, every slot with its kind. Each call does to that list exactly what
//! `specs/Calls.antt` says, or is refused for the one reason that it gives there; refused, the stack is as before. All memory
//! is taken by `Stack::new`. [`frames_law`] says what the calls do to the list of frames, and that the shuffles are the forms of
//! the JVM Specification.
#![tactic(auto)]

mod key;
mod laws;
mod lay;
mod place;
mod refused;
mod rows;
mod shuffle_rows;
mod shuffles;
mod slot;
mod stack;

pub use key::FrameKey;
pub use laws::frames_law;
pub use place::Place;
pub use refused::Refused;
pub use shuffle_rows::{Shuffle, shuffle_of};
pub use slot::Slot;
pub use stack::Stack;
