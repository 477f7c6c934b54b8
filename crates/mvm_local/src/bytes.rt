//! One or two bytes of a method's code.

ghost use Rattle.std.specs.Prelude.{◌≡◌, ◌+ℤ◌, pos, IfSome};
ghost use Rattle.std.specs.Int.{w8, w16, cast_signed};
ghost use Rattle.mvm_local.specs.Bytes.{Stands};

/// The byte at a place, if one is there.
#[inline]
pub(crate) fn byte_at(code: &[u8], at: u32) -> Option<u8>
    ensures { IfSome result (λ x. Stands 1 at code.now x) }
{
    match code.get(at as usize) {
        Some(byte) => Some(*byte),
        None => None,
    }
}

/// The number in the two bytes at a place, the high byte first, if they are there.
#[inline]
pub(crate) fn short_at(code: &[u8], at: u32) -> Option<u16>
    ensures { IfSome result (λ x. Stands 2 at code.now x) }
{
    match (code.get(at as usize), code.get(at as usize + 1)) {
        (Some(high), Some(low)) => Some(u16::from(*high) * 256 + u16::from(*low)),
        _ => None,
    }
}

/// The number of a byte in two's complement.
#[inline]
pub(crate) fn signed_byte(byte: u8) -> i32
    ensures { result ≡ cast_signed w8 byte }
{
    i32::from(byte.cast_signed())
}

/// The number of two bytes in two's complement.
#[inline]
pub(crate) fn signed_short(short: u16) -> i32
    ensures { result ≡ cast_signed w16 short }
{
    i32::from(short.cast_signed())
}

/// The target of a branch, counted from the place of its opcode by two bytes in two's complement.
#[inline]
pub(crate) fn target_from(pc: u32, offset: u16) -> i64
    ensures { result ≡ pos pc +ℤ cast_signed w16 offset }
{
    i64::from(pc) + i64::from(signed_short(offset))
}
