//! Files: the static constraints on the code of a class file (JVM Specification 4.9.1, and 4.9.2 but for the types of values).
//!
//! To the layers above it promises: where [`check`] answers `Ok`, the class file is sound, as `IsSound` of `specs/Sound.antt`
//! says. At each place at which an instruction begins `insn_at` of `mvm_insn` reads one; the places to which it leads, the
//! handlers, and the place behind it are such places, unless nothing goes on behind it; what an operand names in the constant
//! pool is of the kind that its opcode wants; and local variables lie within `max_locals`. Otherwise [`check`] answers the
//! first fault, exactly as `check_of` of `specs/Check.antt` says. [`check_law`] has the laws that tie these definitions.
#![tactic(auto)]

mod array_types;
mod checking;
mod constants;
mod fault;
mod instruction;
mod laws;
mod letters;
mod locals;
mod methods;
mod operands;
mod starts;

pub use checking::check;
pub use fault::{CheckFault, CheckKind};
pub use laws::check_law;
