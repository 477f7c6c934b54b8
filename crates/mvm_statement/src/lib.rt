//! Files: one line of a class file as text, read as a statement, and a statement written as a line.
//!
//! To the layer above it promises: [`read_line`] answers exactly what `line_says` of `specs/Statements.antt` says of the bytes of a
//! line, a statement, nothing or one of two faults; [`write_line`] adds exactly `text_of` of a statement; and the line of each
//! statement that can be written says that statement ([`statement_law`]). A number is kept as it is below 2^64 in magnitude, and as
//! 2^64 or -2^64 from there on: whether it fits its field is for the layer above to say.
#![tactic(auto)]

mod fault;
mod instruction;
mod laws;
mod numbers;
mod operand;
mod pool_value;
mod read_instruction;
mod read_lines;
mod read_operands;
mod read_statement;
mod read_value;
mod read_words;
mod statement;
mod token;
mod tokens;
mod words;
mod write_instruction;
mod write_operands;
mod write_statement;
mod write_tokens;

pub use fault::{AsmKind, LineFault};
pub use instruction::Instruction;
pub use laws::statement_law;
pub use operand::{Initial, KeyRow, Loadable, LongConstant, Member, Place, Reference};
pub use pool_value::{IndexKind, MixedKind, NumberKind, PairKind, PoolValue};
pub use read_statement::read_line;
pub use statement::Statement;
pub use write_statement::write_line;
