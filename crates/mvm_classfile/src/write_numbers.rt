//! Numbers at the end of a list of bytes, the high byte first.

ghost use Rattle.std.specs.Prelude.{◌≡◌, ◌++◌, OnOk};
ghost use Rattle.std.specs.Int.{w32, w64, cast_unsigned};
ghost use Rattle.mvm_base.specs.Endian.{big_bytes};
ghost use Rattle.mvm_classfile.specs.Writing.{u1, u2, u4};

use byteorder::{BigEndian, ByteOrder};
use std::alloc::AllocError;

/// Adds one byte.
pub(crate) fn push_u1(bytes: &mut Vec<u8>, number: u8) -> Result<(), AllocError>
    ensures { OnOk result (bytes.new.items ≡ bytes.old.items ++ u1 number) }
{
    bytes.push(number)?;
    Ok(())
}

/// Adds the two bytes of a number.
pub(crate) fn push_u2(bytes: &mut Vec<u8>, number: u16) -> Result<(), AllocError>
    ensures { OnOk result (bytes.new.items ≡ bytes.old.items ++ u2 number) }
{
    let mut digits = [0u8; 2];
    BigEndian::write_u16(&mut digits, number);
    bytes.extend_from_slice(&digits)
}

/// Adds the four bytes of a number.
pub(crate) fn push_u4(bytes: &mut Vec<u8>, number: u32) -> Result<(), AllocError>
    ensures { OnOk result (bytes.new.items ≡ bytes.old.items ++ u4 number) }
{
    let mut digits = [0u8; 4];
    BigEndian::write_u32(&mut digits, number);
    bytes.extend_from_slice(&digits)
}

/// Adds the eight bytes of a number.
pub(crate) fn push_u8(bytes: &mut Vec<u8>, number: u64) -> Result<(), AllocError>
    ensures { OnOk result (bytes.new.items ≡ bytes.old.items ++ big_bytes 8 number) }
{
    let mut digits = [0u8; 8];
    BigEndian::write_u64(&mut digits, number);
    bytes.extend_from_slice(&digits)
}

/// Adds the four bytes of a signed number.
pub(crate) fn push_int(bytes: &mut Vec<u8>, number: i32) -> Result<(), AllocError>
    ensures { OnOk result (bytes.new.items ≡ bytes.old.items ++ u4 (cast_unsigned w32 number)) }
{
    let mut digits = [0u8; 4];
    BigEndian::write_i32(&mut digits, number);
    bytes.extend_from_slice(&digits)
}

/// Adds the eight bytes of a signed number.
pub(crate) fn push_long(bytes: &mut Vec<u8>, number: i64) -> Result<(), AllocError>
    ensures { OnOk result (bytes.new.items ≡ bytes.old.items ++ big_bytes 8 (cast_unsigned w64 number)) }
{
    let mut digits = [0u8; 8];
    BigEndian::write_i64(&mut digits, number);
    bytes.extend_from_slice(&digits)
}

/// Adds the low two bytes of a count.
pub(crate) fn push_count(bytes: &mut Vec<u8>, count: usize) -> Result<(), AllocError>
    ensures { OnOk result (bytes.new.items ≡ bytes.old.items ++ u2 count) }
{
    bytes.push((count / 256 % 256) as u8)?;
    bytes.push((count % 256) as u8)?;
    Ok(())
}

/// Adds the low four bytes of a count.
pub(crate) fn push_long_count(bytes: &mut Vec<u8>, count: usize) -> Result<(), AllocError>
    ensures { OnOk result (bytes.new.items ≡ bytes.old.items ++ u4 count) }
{
    bytes.push((count / 16777216 % 256) as u8)?;
    bytes.push((count / 65536 % 256) as u8)?;
    bytes.push((count / 256 % 256) as u8)?;
    bytes.push((count % 256) as u8)?;
    Ok(())
}
