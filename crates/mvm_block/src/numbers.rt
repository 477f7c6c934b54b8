//! Numbers at the end of a list of bytes, the high byte first.

ghost use Rattle.std.specs.Prelude.{◌≡◌, ◌++◌, IsTrue, OnOk};
ghost use Rattle.mvm_statement.specs.Numbers.{magnitude};
ghost use Rattle.mvm_listing.specs.Range.{is_u1, is_u2, is_i1, is_i2, is_i4};
ghost use Rattle.mvm_listing.specs.Encoding.{u1, u2, u4, i1, i2, i4, padding};

use byteorder::{BigEndian, ByteOrder};
use std::alloc::AllocError;

/// Adds the one byte of a number.
pub(crate) fn push_u1(out: &mut Vec<u8>, number: i128) -> Result<(), AllocError>
    requires { IsTrue (is_u1 number) }
    ensures { OnOk result (out.new.items ≡ out.old.items ++ u1 (magnitude number)) }
{
    out.push(number as u8)?;
    Ok(())
}

/// Adds the two bytes of a number.
pub(crate) fn push_u2(out: &mut Vec<u8>, number: i128) -> Result<(), AllocError>
    requires { IsTrue (is_u2 number) }
    ensures { OnOk result (out.new.items ≡ out.old.items ++ u2 (magnitude number)) }
{
    let mut digits = [0u8; 2];
    BigEndian::write_u16(&mut digits, number as u16);
    out.extend_from_slice(&digits)
}

/// Adds the low four bytes of a count.
pub(crate) fn push_count(out: &mut Vec<u8>, count: usize) -> Result<(), AllocError>
    ensures { OnOk result (out.new.items ≡ out.old.items ++ u4 count) }
{
    let digits = count.to_be_bytes();
    out.extend_from_slice(&digits[4..])
}

/// Adds the one byte of a number in two's complement.
pub(crate) fn push_i1(out: &mut Vec<u8>, number: i128) -> Result<(), AllocError>
    requires { IsTrue (is_i1 number) }
    ensures { OnOk result (out.new.items ≡ out.old.items ++ i1 number) }
{
    out.push((number as i8).cast_unsigned())?;
    Ok(())
}

/// Adds the two bytes of a number in two's complement.
pub(crate) fn push_i2(out: &mut Vec<u8>, number: i128) -> Result<(), AllocError>
    requires { IsTrue (is_i2 number) }
    ensures { OnOk result (out.new.items ≡ out.old.items ++ i2 number) }
{
    let mut digits = [0u8; 2];
    BigEndian::write_i16(&mut digits, number as i16);
    out.extend_from_slice(&digits)
}

/// Adds the four bytes of a number in two's complement.
pub(crate) fn push_i4(out: &mut Vec<u8>, number: i128) -> Result<(), AllocError>
    requires { IsTrue (is_i4 number) }
    ensures { OnOk result (out.new.items ≡ out.old.items ++ i4 number) }
{
    let mut digits = [0u8; 4];
    BigEndian::write_i32(&mut digits, number as i32);
    out.extend_from_slice(&digits)
}

/// Adds zeros from an opcode at a place up to the next place that four divides.
pub(crate) fn push_padding(out: &mut Vec<u8>, at: u64) -> Result<(), AllocError>
    ensures { OnOk result (out.new.items ≡ out.old.items ++ padding at) }
{
    let zeros = [0u8; 3];
    out.extend_from_slice(&zeros[(at % 4) as usize..])
}
