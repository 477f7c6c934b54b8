//! Files: the code of a method as the lines of an assembler text build it.
//!
//! To the layers above it promises: a [`Block`] is, to a clause, the code that the definition of the lines builds, piece by piece; whether
//! all its places are known and which lines have one that does not fit are told exactly; and where they are known and fit, [`Block::code`]
//! gives exactly the code that the definition gives. A label is found by its name, with no walk over the others.
#![tactic(auto)]

mod block;
mod encode;
mod fit;
mod labels;
mod length;
mod made;
mod numbers;

pub use block::Block;
