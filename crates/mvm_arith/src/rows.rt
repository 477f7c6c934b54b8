//! Which opcode stands for which operation (JVM Specification 6.5).

ghost use Rattle.std.specs.Prelude.{◌≡◌};
ghost use Rattle.mvm_arith.specs.Rows.{int_operation, long_arithmetic, long_shift, conversion};

use crate::operations::{Arithmetic, Conversion, IntOperation, Shift};
use mvm_insn::opcodes;

/// The operation on two ints of an opcode from `iadd` to `ixor`; `None` for any other.
pub fn int_operation(op: u8) -> Option<IntOperation>
    ensures { result ≡ int_operation op }
{
    match op {
        opcodes::IADD => Some(IntOperation::Arithmetic(Arithmetic::Add)),
        opcodes::ISUB => Some(IntOperation::Arithmetic(Arithmetic::Subtract)),
        opcodes::IMUL => Some(IntOperation::Arithmetic(Arithmetic::Multiply)),
        opcodes::IDIV => Some(IntOperation::Arithmetic(Arithmetic::Divide)),
        opcodes::IREM => Some(IntOperation::Arithmetic(Arithmetic::Remainder)),
        opcodes::INEG => Some(IntOperation::Arithmetic(Arithmetic::Negate)),
        opcodes::IAND => Some(IntOperation::Arithmetic(Arithmetic::And)),
        opcodes::IOR => Some(IntOperation::Arithmetic(Arithmetic::Or)),
        opcodes::IXOR => Some(IntOperation::Arithmetic(Arithmetic::ExclusiveOr)),
        opcodes::ISHL => Some(IntOperation::Shift(Shift::Left)),
        opcodes::ISHR => Some(IntOperation::Shift(Shift::Right)),
        opcodes::IUSHR => Some(IntOperation::Shift(Shift::UnsignedRight)),
        _ => None,
    }
}

/// The operation on two longs of an opcode from `ladd` to `lxor`; `None` for any other, the shifts among them.
pub fn long_arithmetic(op: u8) -> Option<Arithmetic>
    ensures { result ≡ long_arithmetic op }
{
    match op {
        opcodes::LADD => Some(Arithmetic::Add),
        opcodes::LSUB => Some(Arithmetic::Subtract),
        opcodes::LMUL => Some(Arithmetic::Multiply),
        opcodes::LDIV => Some(Arithmetic::Divide),
        opcodes::LREM => Some(Arithmetic::Remainder),
        opcodes::LNEG => Some(Arithmetic::Negate),
        opcodes::LAND => Some(Arithmetic::And),
        opcodes::LOR => Some(Arithmetic::Or),
        opcodes::LXOR => Some(Arithmetic::ExclusiveOr),
        _ => None,
    }
}

/// The shift of a long of an opcode: `lshl`, `lshr`, `lushr`; `None` for any other.
pub fn long_shift(op: u8) -> Option<Shift>
    ensures { result ≡ long_shift op }
{
    match op {
        opcodes::LSHL => Some(Shift::Left),
        opcodes::LSHR => Some(Shift::Right),
        opcodes::LUSHR => Some(Shift::UnsignedRight),
        _ => None,
    }
}

/// The conversion of an opcode: `i2l`, `l2i`, `i2b`, `i2c`, `i2s`; `None` for any other.
pub fn conversion(op: u8) -> Option<Conversion>
    ensures { result ≡ conversion op }
{
    match op {
        opcodes::I2L => Some(Conversion::IntToLong),
        opcodes::L2I => Some(Conversion::LongToInt),
        opcodes::I2B => Some(Conversion::IntToByte),
        opcodes::I2C => Some(Conversion::IntToChar),
        opcodes::I2S => Some(Conversion::IntToShort),
        _ => None,
    }
}
