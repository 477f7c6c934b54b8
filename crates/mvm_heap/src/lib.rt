//! Memory: objects, arrays and texts by number, packed in the words of one region.
//!
//! To the layer above it promises: a [`Heap`] is a list of objects, each a sort, a class number and a list of numbers of at
//! most 64 bits, with a list of monitors and the numbers of the interned texts. An allocation puts one object behind the
//! others, or answers `Full` exactly where words are missing and changes nothing. A write changes one place of one object.
//! No clause tells how objects are packed. Only [`Heap::new`], [`Heap::reserve`] and [`Heap::intern`] take memory, and
//! `intern` wants none within the room that was reserved.
#![tactic(auto)]

mod block;
mod header;
mod heap;
mod index;
mod kind;
mod packing;
mod rows;
mod store;
mod text;
mod values;

pub use heap::Heap;
pub use kind::{AllocFault, ItemKind, ObjectKind};
pub use mvm_region::Monitor;
pub use values::{bits_of, item_of, word_of, words_needed};
