//! Files: a class file as text.
//!
//! To the layers above it promises [`disassemble`]: the text of a class file, each of its bytes as `disassembly` of mvm_listing has it,
//! unless memory runs out; and that this text is assembled to the class file again.
#![tactic(auto)]

mod line_of;
mod pieces;
mod places;
mod remark;
mod write_class;
mod write_code;
mod write_lines;

pub use write_class::disassemble;
