//! What the instructions compute (JVM Specification 6.5).

ghost use Rattle.std.specs.Prelude.{◌≡◌, ◌<◌, IsSome, Some, option_map};
ghost use Rattle.std.specs.Int.{w8, w16, w32, w64};
ghost use Rattle.mvm_arith.specs.Numbers.{low_bits, reduced, quotient, remainder, unless_zero, computed, places, shifted, compared};
ghost use Rattle.mvm_arith.specs.Rows.{int_result, int_operation, long_arithmetic, long_shift, converted, conversion};

use crate::operations::{Arithmetic, Conversion, IntOperation, Shift};
use crate::rows;
use mvm_base::Word;

/// A number was divided by zero.
#[derive(Clone, Copy, Debug, PartialEq, Eq)]
pub struct DivZero;

fn int_quotient(a: i32, b: i32) -> Result<i32, DivZero>
    ensures { result ≡ unless_zero b (reduced w32 (quotient a b)) }
{
    if b == 0 {
        return Err(DivZero);
    }
    Ok(a.wrapping_div(b))
}

fn int_remainder(a: i32, b: i32) -> Result<i32, DivZero>
    ensures { result ≡ unless_zero b (remainder a b) }
{
    if b == 0 {
        return Err(DivZero);
    }
    Ok(a.wrapping_rem(b))
}

#[tactic(auto, unfolding(crate::specs::Numbers::computed))]
fn int_arithmetic(operation: Arithmetic, a: i32, b: i32) -> Result<i32, DivZero>
    ensures { result ≡ computed w32 operation a b }
{
    match operation {
        Arithmetic::Add => Ok(a.wrapping_add(b)),
        Arithmetic::Subtract => Ok(a.wrapping_sub(b)),
        Arithmetic::Multiply => Ok(a.wrapping_mul(b)),
        Arithmetic::Divide => int_quotient(a, b),
        Arithmetic::Remainder => int_remainder(a, b),
        Arithmetic::Negate => Ok(a.wrapping_neg()),
        Arithmetic::And => Ok(a & b),
        Arithmetic::Or => Ok(a | b),
        Arithmetic::ExclusiveOr => Ok(a ^ b),
    }
}

fn long_quotient(a: i64, b: i64) -> Result<i64, DivZero>
    ensures { result ≡ unless_zero b (reduced w64 (quotient a b)) }
{
    if b == 0 {
        return Err(DivZero);
    }
    Ok(a.wrapping_div(b))
}

fn long_remainder(a: i64, b: i64) -> Result<i64, DivZero>
    ensures { result ≡ unless_zero b (remainder a b) }
{
    if b == 0 {
        return Err(DivZero);
    }
    Ok(a.wrapping_rem(b))
}

#[tactic(auto, unfolding(crate::specs::Numbers::computed))]
fn long_arithmetic(operation: Arithmetic, a: i64, b: i64) -> Result<i64, DivZero>
    ensures { result ≡ computed w64 operation a b }
{
    match operation {
        Arithmetic::Add => Ok(a.wrapping_add(b)),
        Arithmetic::Subtract => Ok(a.wrapping_sub(b)),
        Arithmetic::Multiply => Ok(a.wrapping_mul(b)),
        Arithmetic::Divide => long_quotient(a, b),
        Arithmetic::Remainder => long_remainder(a, b),
        Arithmetic::Negate => Ok(a.wrapping_neg()),
        Arithmetic::And => Ok(a & b),
        Arithmetic::Or => Ok(a | b),
        Arithmetic::ExclusiveOr => Ok(a ^ b),
    }
}

fn int_places(distance: i32) -> u32
    ensures value { result ≡ places w32 distance }
    ensures few { result < 32 }
{
    distance.cast_unsigned() % 32
}

fn long_places(distance: i32) -> u32
    ensures value { result ≡ places w64 distance }
    ensures few { result < 64 }
{
    distance.cast_unsigned() % 64
}

#[tactic(auto, unfolding(crate::specs::Numbers::shifted))]
fn shifted_int(shift: Shift, value: i32, distance: i32) -> i32
    ensures { result ≡ shifted w32 shift value distance }
{
    let places = int_places(distance);
    match shift {
        Shift::Left => value << places,
        Shift::Right => value >> places,
        Shift::UnsignedRight => (value.cast_unsigned() >> places).cast_signed(),
    }
}

#[tactic(auto, unfolding(crate::specs::Numbers::shifted))]
fn shifted_long(shift: Shift, value: i64, distance: i32) -> i64
    ensures { result ≡ shifted w64 shift value distance }
{
    let places = long_places(distance);
    match shift {
        Shift::Left => value << places,
        Shift::Right => value >> places,
        Shift::UnsignedRight => (value.cast_unsigned() >> places).cast_signed(),
    }
}

fn low_int(value: i64) -> i32
    ensures { result ≡ reduced w32 value }
{
    let low = (value.cast_unsigned() & 0xffff_ffff) as u32;
    low.cast_signed()
}

fn low_byte(value: i32) -> i8
    ensures { result ≡ reduced w8 value }
{
    let low = (value.cast_unsigned() & 0xff) as u8;
    low.cast_signed()
}

fn low_char(value: i32) -> u16
    ensures { result ≡ low_bits 16 value }
{
    (value.cast_unsigned() & 0xffff) as u16
}

fn low_short(value: i32) -> i16
    ensures { result ≡ reduced w16 value }
{
    low_char(value).cast_signed()
}

#[tactic(auto, unfolding(crate::specs::Rows::converted))]
fn converted(conversion: Conversion, word: Word) -> Option<Word>
    ensures { result ≡ converted conversion word }
{
    match (conversion, word) {
        (Conversion::IntToLong, Word::Int(value)) => Some(Word::Long(i64::from(value))),
        (Conversion::LongToInt, Word::Long(value)) => Some(Word::Int(low_int(value))),
        (Conversion::IntToByte, Word::Int(value)) => Some(Word::Int(i32::from(low_byte(value)))),
        (Conversion::IntToChar, Word::Int(value)) => Some(Word::Int(i32::from(low_char(value)))),
        (Conversion::IntToShort, Word::Int(value)) => Some(Word::Int(i32::from(low_short(value)))),
        _ => None,
    }
}

/// What an instruction from `iadd` to `ixor` computes of two ints, the first of them below the second on the stack. Of a
/// shift the second is the distance, of which the low 5 bits count; `ineg` does not look at the second. `op` is such an opcode.
pub fn int_op(op: u8, a: i32, b: i32) -> Result<i32, DivZero>
    requires { IsSome (int_operation op) }
    ensures { option_map (λ operation. int_result operation a b) (int_operation op) ≡ Some result }
{
    match rows::int_operation(op) {
        Some(IntOperation::Arithmetic(operation)) => int_arithmetic(operation, a, b),
        Some(IntOperation::Shift(shift)) => Ok(shifted_int(shift, a, b)),
        None => unreachable!(),
    }
}

/// What an instruction from `ladd` to `lxor` computes of two longs, the first of them below the second on the stack; `lneg`
/// does not look at the second. `op` is such an opcode, and not that of a shift.
pub fn long_op(op: u8, a: i64, b: i64) -> Result<i64, DivZero>
    requires { IsSome (long_arithmetic op) }
    ensures { option_map (λ operation. computed w64 operation a b) (long_arithmetic op) ≡ Some result }
{
    match rows::long_arithmetic(op) {
        Some(operation) => long_arithmetic(operation, a, b),
        None => unreachable!(),
    }
}

/// The long shifted by `lshl`, `lshr` or `lushr`; of the count the low 6 bits count. `op` is such an opcode.
pub fn shift_long(op: u8, a: i64, count: i32) -> i64
    requires { IsSome (long_shift op) }
    ensures { option_map (λ shift. shifted w64 shift a count) (long_shift op) ≡ Some result }
{
    match rows::long_shift(op) {
        Some(shift) => shifted_long(shift, a, count),
        None => unreachable!(),
    }
}

/// What `i2l`, `l2i`, `i2b`, `i2c` or `i2s` makes of a word; `None` exactly where it is of another kind than the instruction
/// takes. `op` is such an opcode.
pub fn convert(op: u8, word: Word) -> Option<Word>
    requires { IsSome (conversion op) }
    ensures { option_map (λ conversion. converted conversion word) (conversion op) ≡ Some result }
{
    match rows::conversion(op) {
        Some(conversion) => converted(conversion, word),
        None => unreachable!(),
    }
}

/// What `lcmp` answers: 1 where the first is greater, 0 where both are equal, -1 where the first is less.
#[tactic(auto, unfolding(crate::specs::Numbers::compared))]
pub fn compare(a: i64, b: i64) -> i32
    ensures { result ≡ compared a b }
{
    if a > b {
        1
    } else if a < b {
        -1
    } else {
        0
    }
}
