//! Step: the numbers of the instructions (JVM Specification 6.5): what `iadd` to `lxor`, the conversions and `lcmp` compute.
//!
//! To the layers above it promises: each call answers exactly what `specs/Numbers.antt` says of the integers that it is
//! given, reduced to 32 or 64 bits in two's complement where a result overflows, and [`arithmetic_law`] what that comes to. A division by zero is refused, and nothing
//! else is: the least number divided by -1 is itself. No call takes memory.
#![tactic(auto)]

mod compute;
mod laws;
mod operations;
mod rows;

pub use compute::{DivZero, compare, convert, int_op, long_op, shift_long};
pub use laws::arithmetic_law;
pub use operations::{Arithmetic, Conversion, IntOperation, Shift};
pub use rows::{conversion, int_operation, long_arithmetic, long_shift};
