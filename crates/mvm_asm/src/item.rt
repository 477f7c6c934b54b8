//! Numbers of a line in the fields for which they are meant, and the entry of the constant pool that a line gives.

ghost use Rattle.std.specs.Prelude.{◌≡◌, IsTrue};
ghost use Rattle.mvm_statement.specs.Numbers.{magnitude};
ghost use Rattle.mvm_listing.specs.Range.{is_u1, is_u2, is_i4, is_i8, fits_number, fits_mixed, fits_value};
ghost use Rattle.mvm_listing.specs.Constants.{number_item, index_item, pair_item, mixed_item, item_of};

use mvm_layout::Item;
use mvm_statement::{IndexKind, MixedKind, NumberKind, PairKind, PoolValue};

/// A number of one byte.
pub(crate) fn byte(number: i128) -> u8
    requires { IsTrue (is_u1 number) }
    ensures { result ≡ magnitude number }
{
    number as u8
}

/// A number of two bytes.
pub(crate) fn short(number: i128) -> u16
    requires { IsTrue (is_u2 number) }
    ensures { result ≡ magnitude number }
{
    number as u16
}

/// A number of four bytes in two's complement.
pub(crate) fn int(number: i128) -> i32
    requires { IsTrue (is_i4 number) }
    ensures { result ≡ number }
{
    number as i32
}

/// A number of eight bytes in two's complement.
pub(crate) fn long(number: i128) -> i64
    requires { IsTrue (is_i8 number) }
    ensures { result ≡ number }
{
    number as i64
}

/// The entry of a number.
fn number_item(kind: NumberKind, number: i128) -> Item
    requires { IsTrue (fits_number kind number) }
    ensures { result ≡ number_item kind number }
{
    match kind {
        NumberKind::Integer => Item::Integer(int(number)),
        NumberKind::Float => Item::Float(number as u32),
        NumberKind::Long => Item::Long(long(number)),
        NumberKind::Double => Item::Double(number as u64),
    }
}

/// The entry that leads to another.
fn index_item(kind: IndexKind, index: u16) -> Item
    ensures { result ≡ index_item kind index }
{
    match kind {
        IndexKind::Class => Item::Class(index),
        IndexKind::Str => Item::Str(index),
        IndexKind::MethodType => Item::MethodType(index),
    }
}

/// The entry that leads to two others.
fn pair_item(kind: PairKind, first: u16, second: u16) -> Item
    ensures { result ≡ pair_item kind first second }
{
    match kind {
        PairKind::Fieldref => Item::Fieldref(first, second),
        PairKind::Methodref => Item::Methodref(first, second),
        PairKind::InterfaceMethodref => Item::InterfaceMethodref(first, second),
        PairKind::NameAndType => Item::NameAndType(first, second),
    }
}

/// The entry of a number that leads to another.
fn mixed_item(kind: MixedKind, number: i128, index: u16) -> Item
    requires { IsTrue (fits_mixed kind number) }
    ensures { result ≡ mixed_item kind (magnitude number) index }
{
    match kind {
        MixedKind::MethodHandle => Item::MethodHandle(byte(number), index),
        MixedKind::InvokeDynamic => Item::InvokeDynamic(short(number), index),
    }
}

/// The entry of a value whose numbers fit.
pub(crate) fn item_of(value: PoolValue) -> Item
    requires { IsTrue (fits_value value) }
    ensures { result ≡ item_of value }
{
    match value {
        PoolValue::Text(text) => Item::Utf8(text),
        PoolValue::Number { kind, number } => number_item(kind, number),
        PoolValue::Index { kind, index } => index_item(kind, short(index)),
        PoolValue::Indices {
            kind,
            first,
            second,
        } => pair_item(kind, short(first), short(second)),
        PoolValue::NumberAndIndex {
            kind,
            number,
            index,
        } => mixed_item(kind, number, short(index)),
    }
}
