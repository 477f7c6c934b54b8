//! Files: a text is assembled to a class file.
//!
//! To the layers above it promises: [`assemble`] answers exactly what `class_of` of mvm_listing says of the text: the class file, the
//! first fault of the text by its line, or the fault of the class file that the text says. Nothing is said of want of memory alone.
//! And it hands on the way back, [`disassemble`], whose text is assembled to the class file again.
#![tactic(auto)]

mod assembly;
mod cut;
mod first_fault;
mod going;
mod growing;
mod item;
mod settle;
mod turn;

pub use assembly::assemble;
pub use mvm_disassembler::disassemble;
pub use mvm_listing::AsmFault;
