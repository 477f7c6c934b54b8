//! Files: the instructions of a method's code (JVM Specification 6.5), decoded one at a time.
//!
//! To the layers above it promises: [`insn_at`] answers exactly what `insn` of `specs/Insns.antt` says of the code and the
//! place, an instruction and the place behind it or one of four faults, and takes no memory. Each instruction takes a byte
//! at least and ends inside the code, and the keys of a switch rise ([`insn_law`]). What stands behind an opcode is said by
//! its row of one table, [`table::TABLE`], which the definition looks up. The rows of a switch are lent from the code;
//! contracts see them as a list of keys and targets.
#![tactic(auto)]

mod decode;
mod fault;
mod insn;
mod laws;
pub mod opcodes;
mod read;
mod read_switch;
mod switch;
mod switch_rows;
pub mod table;

pub use decode::insn_at;
pub use fault::InsnFault;
pub use insn::{At, Insn};
pub use laws::insn_law;
pub use switch::Switch;
pub use switch_rows::SwitchRow;
pub use table::{Operands, mnemonic, opcode_named, operands_of};
