//! What the instructions compute of the values that they take, by their opcodes (JVM Specification 6.5).

ghost use Rattle.std.specs.Prelude.{◌≡◌};
ghost use Rattle.mvm_local.specs.Values.{int_of, long_of, shifted_long, word_of, holds, is_same, is_null};

use crate::action::Condition;
use crate::fault::Fault;
use mvm_arith::{
    conversion, convert, int_op, int_operation, long_arithmetic, long_op, long_shift, shift_long,
};
use mvm_base::Word;

#[tactic(auto, unfolding(crate::specs::Values::int_of))]
#[inline]
pub(crate) fn int_of(op: u8, x: i32, y: i32) -> Result<i32, Fault>
    ensures { result ≡ int_of op x y }
{
    match int_operation(op) {
        Some(_) => match int_op(op, x, y) {
            Ok(value) => Ok(value),
            Err(_) => Err(Fault::Arithmetic),
        },
        None => Err(Fault::Verify),
    }
}

#[tactic(auto, unfolding(crate::specs::Values::long_of))]
#[inline]
pub(crate) fn long_of(op: u8, x: i64, y: i64) -> Result<i64, Fault>
    ensures { result ≡ long_of op x y }
{
    match long_arithmetic(op) {
        Some(_) => match long_op(op, x, y) {
            Ok(value) => Ok(value),
            Err(_) => Err(Fault::Arithmetic),
        },
        None => Err(Fault::Verify),
    }
}

#[tactic(auto, unfolding(crate::specs::Values::shifted_long))]
#[inline]
pub(crate) fn shifted_long(op: u8, x: i64, distance: i32) -> Result<i64, Fault>
    ensures { result ≡ shifted_long op x distance }
{
    match long_shift(op) {
        Some(_) => Ok(shift_long(op, x, distance)),
        None => Err(Fault::Verify),
    }
}

#[tactic(auto, unfolding(crate::specs::Values::word_of))]
#[inline]
pub(crate) fn word_of(op: u8, word: Word) -> Result<Word, Fault>
    ensures { result ≡ word_of op word }
{
    match conversion(op) {
        Some(_) => match convert(op, word) {
            Some(converted) => Ok(converted),
            None => Err(Fault::Verify),
        },
        None => Err(Fault::Verify),
    }
}

#[tactic(auto, unfolding(crate::specs::Values::holds))]
#[inline]
pub(crate) fn holds(condition: Condition, x: i32, y: i32) -> bool
    ensures { result ≡ holds condition x y }
{
    match condition {
        Condition::Equal => x == y,
        Condition::NotEqual => x != y,
        Condition::Less => x < y,
        Condition::GreaterOrEqual => x >= y,
        Condition::Greater => x > y,
        Condition::LessOrEqual => x <= y,
    }
}

/// Whether two references are to one object, or both null.
#[tactic(auto, unfolding(crate::specs::Values::is_same))]
#[inline]
pub(crate) fn is_same(x: Word, y: Word) -> bool
    ensures { result ≡ is_same x y }
{
    match (x, y) {
        (Word::Ref(m), Word::Ref(n)) => m == n,
        (Word::Null, Word::Null) => true,
        _ => false,
    }
}

#[tactic(auto, unfolding(crate::specs::Values::is_null))]
#[inline]
pub(crate) fn is_null(word: Word) -> bool
    ensures { result ≡ is_null word }
{
    match word {
        Word::Null => true,
        Word::Int(_) | Word::Long(_) | Word::Ref(_) => false,
    }
}
