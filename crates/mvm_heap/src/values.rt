//! Values and their bits.

ghost use Rattle.std.specs.Prelude.{◌≡◌, ◌<◌, ◌≤◌, ◌^◌};
ghost use Rattle.mvm_heap.specs.Packed.{bits, item_bits};
ghost use Rattle.mvm_heap.specs.Sorts.{bits_of, reference, word_of, item_of, value_of, kept_item, kept, place_bytes, item_bytes, words_needed};

use crate::kind::{ItemKind, ObjectKind};
use mvm_base::{Kind, Word};

/// The bits of a value: an int and a long as their bits, null as 0, a reference as the object's number and 1.
pub fn bits_of(word: Word) -> u64
    ensures { result ≡ bits_of word }
{
    match word {
        Word::Int(n) => u64::from(n.cast_unsigned()),
        Word::Long(n) => n.cast_unsigned(),
        Word::Ref(n) => u64::from(n) + 1,
        Word::Null => 0,
    }
}

/// The reference of these bits.
pub fn reference(n: u64) -> Word
    ensures { result ≡ reference n }
{
    if n == 0 {
        return Word::Null;
    }
    Word::Ref(((n - 1) % 4_294_967_296) as u32)
}

/// A value of a kind, from its bits: 0 is 0 or null of each kind.
#[tactic(auto, unfolding(crate::specs::Sorts::word_of))]
pub fn word_of(kind: Kind, n: u64) -> Word
    ensures { result ≡ word_of kind n }
{
    match kind {
        Kind::Int => Word::Int(((n % 4_294_967_296) as u32).cast_signed()),
        Kind::Long => Word::Long(n.cast_signed()),
        Kind::Ref => reference(n),
    }
}

/// What a load from an array gives: bytes and shorts with their sign, booleans and chars without.
#[tactic(auto, unfolding(crate::specs::Sorts::item_of))]
pub fn item_of(kind: ItemKind, n: u64) -> Word
    ensures { result ≡ item_of kind n }
{
    match kind {
        ItemKind::Boolean => Word::Int((n % 2) as i32),
        ItemKind::Byte => Word::Int(i32::from(((n % 256) as u8).cast_signed())),
        ItemKind::Char => Word::Int((n % 65_536) as i32),
        ItemKind::Short => Word::Int(i32::from(((n % 65_536) as u16).cast_signed())),
        ItemKind::Int => Word::Int(((n % 4_294_967_296) as u32).cast_signed()),
        ItemKind::Long => Word::Long(n.cast_signed()),
        ItemKind::Ref => reference(n),
    }
}

#[tactic(auto, unfolding(crate::specs::Sorts::kept_item))]
fn kept_item(kind: ItemKind, n: u64) -> u64
    ensures number { result ≡ kept_item kind n }
    ensures fits { result < 2 ^ item_bits kind }
{
    match kind {
        ItemKind::Boolean => n % 2,
        ItemKind::Byte => n % 256,
        ItemKind::Char | ItemKind::Short => n % 65_536,
        ItemKind::Int | ItemKind::Ref => n % 4_294_967_296,
        ItemKind::Long => n,
    }
}

/// The low bits that a place of an object of this sort keeps.
#[tactic(auto, unfolding(crate::specs::Sorts::kept, crate::specs::Packed::bits))]
pub fn kept(sort: ObjectKind, n: u64) -> u64
    ensures number { result ≡ kept sort n }
    ensures fits { result < 2 ^ bits sort }
{
    match sort {
        ObjectKind::Object => n,
        ObjectKind::Array(kind) => kept_item(kind, n),
        ObjectKind::Text => n % 65_536,
    }
}

fn item_bytes(kind: ItemKind) -> u64
    ensures { result ≡ item_bytes kind }
{
    match kind {
        ItemKind::Boolean | ItemKind::Byte => 1,
        ItemKind::Char | ItemKind::Short => 2,
        ItemKind::Int | ItemKind::Ref => 4,
        ItemKind::Long => 8,
    }
}

fn place_bytes(sort: ObjectKind) -> u64
    ensures bytes { result ≡ place_bytes sort }
    ensures most { result ≤ 8 }
{
    match sort {
        ObjectKind::Object => 8,
        ObjectKind::Array(kind) => item_bytes(kind),
        ObjectKind::Text => 2,
    }
}

/// How many words an object of this sort with so many places takes, its two header words among them.
#[tactic(auto, unfolding(crate::specs::Sorts::words_needed))]
pub fn words_needed(sort: ObjectKind, n: u32) -> u64
    ensures words { result ≡ words_needed sort n }
    ensures headers { 2 ≤ result }
{
    2 + (u64::from(n) * place_bytes(sort) + 7) / 8
}

/// What stands in an array, as a value.
#[tactic(auto, unfolding(crate::specs::Sorts::value_of))]
pub fn value_of(sort: ObjectKind, n: u64) -> Word
    ensures { result ≡ value_of sort n }
{
    match sort {
        ObjectKind::Array(kind) => item_of(kind, n),
        ObjectKind::Object | ObjectKind::Text => Word::Null,
    }
}
