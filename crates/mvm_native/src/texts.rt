ghost use Rattle.std.specs.Prelude.{◌≡◌, ◌<◌, ◌≤◌, ◌^◌, length, IfOk};
ghost use Rattle.std.specs.Fmt.{signed_decimal};
ghost use Rattle.mvm_native.specs.Texts.{text_of, text_or_null, truth_text, unit_of, units_at, HasText, IsText, IsTextOrNull};

use crate::arguments::{int_of, long_of};
use crate::string::whole_text;
use itoa::Buffer;
use mvm_base::{OutOfMemory, Word};
use mvm_heap::Heap;
use std::alloc::{AllocError, Global};

/// What a value is that is made a text.
#[derive(Clone, Copy, Debug, PartialEq, Eq)]
pub enum ValueKind {
    /// A number of 32 bits, in decimal.
    Int,
    /// A number of 64 bits, in decimal.
    Long,
    /// A UTF-16 unit.
    Char,
    /// A truth value: `true` or `false`.
    Boolean,
    /// A text, or null: `null`.
    Text,
}

/// The units of an ASCII text.
fn ascii_units(alloc: Global, text: &str) -> Result<Vec<u16>, AllocError>
    ensures { IfOk result (λ units. units.items ≡ text.now) }
{
    text.as_bytes()
        .iter()
        .map(|byte| u16::from(*byte))
        .collect(alloc)
}

/// A number in decimal.
fn int_units(alloc: Global, value: i32) -> Result<Vec<u16>, AllocError>
    ensures units { IfOk result (λ units. units.items ≡ signed_decimal value) }
    ensures few { IfOk result (λ units. length units.items ≤ 40) }
{
    let mut digits = Buffer::new();
    ascii_units(alloc, digits.format(value))
}

/// A number in decimal.
fn long_units(alloc: Global, value: i64) -> Result<Vec<u16>, AllocError>
    ensures units { IfOk result (λ units. units.items ≡ signed_decimal value) }
    ensures few { IfOk result (λ units. length units.items ≤ 40) }
{
    let mut digits = Buffer::new();
    ascii_units(alloc, digits.format(value))
}

/// The unit of a char: its low 16 bits.
fn unit_of(value: i32) -> u16
    ensures { result ≡ unit_of value }
{
    (value.cast_unsigned() % 65_536) as u16
}

/// The text of a truth value, of which 0 is false.
fn truth_text(value: i32) -> &'static str
    ensures { result.now ≡ truth_text value }
{
    if value == 0 { "false" } else { "true" }
}

/// The units of a text, or those of `null`.
fn text_or_null(alloc: Global, heap: &Heap, value: Word) -> Result<Vec<u16>, AllocError>
    requires { IsTextOrNull heap.now.state.objects value }
    ensures units { IfOk result (λ units. units.items ≡ text_or_null heap.now.state.objects value) }
    ensures few { IfOk result (λ units. length units.items < 2 ^ 30) }
{
    match value {
        Word::Ref(string) => whole_text(alloc, heap, string),
        Word::Null | Word::Int(_) | Word::Long(_) => ascii_units(alloc, "null"),
    }
}

/// The units of the text of a value.
pub fn text_of(
    alloc: Global,
    heap: &Heap,
    kind: ValueKind,
    value: Word,
) -> Result<Vec<u16>, OutOfMemory>
    requires { HasText heap.now.state.objects kind value }
    ensures units { IfOk result (λ units. units.items ≡ text_of heap.now.state.objects kind value) }
    ensures few { IfOk result (λ units. length units.items < 2 ^ 30) }
{
    match kind {
        ValueKind::Int => Ok(int_units(alloc, int_of(value))?),
        ValueKind::Long => Ok(long_units(alloc, long_of(value))?),
        ValueKind::Char => Ok(Vec::from_slice(alloc, &[unit_of(int_of(value))])?),
        ValueKind::Boolean => Ok(ascii_units(alloc, truth_text(int_of(value)))?),
        ValueKind::Text => Ok(text_or_null(alloc, heap, value)?),
    }
}
