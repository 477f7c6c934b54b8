use mvm_arith::{
    DivZero, compare, conversion, convert, int_op, int_operation, long_arithmetic, long_op,
    long_shift, shift_long,
};
use mvm_base::Word;
use mvm_insn::opcodes;

/// What an instruction of arithmetic leaves in the place of its operands.
#[derive(Clone, Copy, Debug, PartialEq, Eq)]
pub(crate) enum Left {
    /// This value.
    Value(Word),
    /// Nothing, since it divides by zero.
    DivZero,
    /// Nothing, since no instruction of this opcode finds such operands.
    Unknown,
}

fn int_left(answer: Result<i32, DivZero>) -> Left {
    match answer {
        Ok(value) => Left::Value(Word::Int(value)),
        Err(DivZero) => Left::DivZero,
    }
}

fn long_left(answer: Result<i64, DivZero>) -> Left {
    match answer {
        Ok(value) => Left::Value(Word::Long(value)),
        Err(DivZero) => Left::DivZero,
    }
}

/// What an instruction leaves of one operand.
fn left_by_one(op: u8, word: Word) -> Left {
    match word {
        Word::Int(value) if op == opcodes::INEG => int_left(int_op(op, value, 0)),
        Word::Long(value) if op == opcodes::LNEG => long_left(long_op(op, value, 0)),
        _ => match conversion(op) {
            Some(_) => match convert(op, word) {
                Some(converted) => Left::Value(converted),
                None => Left::Unknown,
            },
            None => Left::Unknown,
        },
    }
}

/// What an instruction leaves of two ints.
fn left_by_ints(op: u8, below: i32, above: i32) -> Left {
    match int_operation(op) {
        Some(_) if op != opcodes::INEG => int_left(int_op(op, below, above)),
        _ => Left::Unknown,
    }
}

/// What an instruction leaves of two longs.
fn left_by_longs(op: u8, below: i64, above: i64) -> Left {
    if op == opcodes::LCMP {
        return Left::Value(Word::Int(compare(below, above)));
    }
    match long_arithmetic(op) {
        Some(_) if op != opcodes::LNEG => long_left(long_op(op, below, above)),
        _ => Left::Unknown,
    }
}

/// What an instruction leaves of a long and a distance.
fn left_by_shift(op: u8, value: i64, distance: i32) -> Left {
    match long_shift(op) {
        Some(_) => Left::Value(Word::Long(shift_long(op, value, distance))),
        None => Left::Unknown,
    }
}

/// What an instruction of arithmetic, a conversion or `lcmp` leaves of these operands, the lowest first.
pub(crate) fn left_by(op: u8, operands: &[Word]) -> Left {
    match operands {
        [word] => left_by_one(op, *word),
        [Word::Int(below), Word::Int(above)] => left_by_ints(op, *below, *above),
        [Word::Long(below), Word::Long(above)] => left_by_longs(op, *below, *above),
        [Word::Long(value), Word::Int(distance)] => left_by_shift(op, *value, *distance),
        _ => Left::Unknown,
    }
}
