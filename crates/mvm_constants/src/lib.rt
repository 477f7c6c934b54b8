//! Files: a constant pool to which entries are added by what they mean.
//!
//! To the layers above it promises: each call of [`ConstantPool`] that adds an entry answers the index, and leaves the pool, that the
//! definition of `mvm_listing` gives for it, or its fault, unless memory runs out. However many entries there are, none is looked through.
#![tactic(auto)]

mod constants;
mod index;
mod key;
mod name_map;
mod rows;
mod sought;

pub use constants::ConstantPool;
