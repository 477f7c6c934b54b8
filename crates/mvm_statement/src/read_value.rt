//! What a `pool` line gives an entry.
#![tactic(auto)]

ghost use Rattle.std.specs.Prelude.{◌≡◌, bytes_eq, find};
ghost use Rattle.mvm_statement.specs.Reading.{Reads};
ghost use Rattle.mvm_statement.specs.Values.{kind_word, kind_named, kind_in, value_in};

use crate::fault::Unread;
use crate::pool_value::{EntryKind, IndexKind, MixedKind, NumberKind, PairKind, PoolValue};
use crate::read_lines::{just_one, just_two};
use crate::read_operands::{index, number, quoted};
use crate::token::Token;
use mvm_layout::pool::same_text;
use std::alloc::Global;

/// The word of a kind.
pub(crate) fn kind_word(kind: EntryKind) -> &'static str
    ensures { result.now ≡ kind_word kind }
{
    match kind {
        EntryKind::Text => "utf8",
        EntryKind::Number(NumberKind::Integer) => "int",
        EntryKind::Number(NumberKind::Float) => "float",
        EntryKind::Number(NumberKind::Long) => "long",
        EntryKind::Number(NumberKind::Double) => "double",
        EntryKind::Index(IndexKind::Class) => "class",
        EntryKind::Index(IndexKind::Str) => "string",
        EntryKind::Index(IndexKind::MethodType) => "mtype",
        EntryKind::Indices(PairKind::Fieldref) => "field",
        EntryKind::Indices(PairKind::Methodref) => "method",
        EntryKind::Indices(PairKind::InterfaceMethodref) => "imethod",
        EntryKind::Indices(PairKind::NameAndType) => "nat",
        EntryKind::NumberAndIndex(MixedKind::MethodHandle) => "handle",
        EntryKind::NumberAndIndex(MixedKind::InvokeDynamic) => "indy",
    }
}

/// The kinds.
const KINDS: [EntryKind; 14] = [
    EntryKind::Text,
    EntryKind::Number(NumberKind::Integer),
    EntryKind::Number(NumberKind::Float),
    EntryKind::Number(NumberKind::Long),
    EntryKind::Number(NumberKind::Double),
    EntryKind::Index(IndexKind::Class),
    EntryKind::Index(IndexKind::Str),
    EntryKind::Index(IndexKind::MethodType),
    EntryKind::Indices(PairKind::Fieldref),
    EntryKind::Indices(PairKind::Methodref),
    EntryKind::Indices(PairKind::InterfaceMethodref),
    EntryKind::Indices(PairKind::NameAndType),
    EntryKind::NumberAndIndex(MixedKind::MethodHandle),
    EntryKind::NumberAndIndex(MixedKind::InvokeDynamic),
];

/// The first of some kinds that has a word.
fn kind_among(kinds: &[EntryKind], word: &[u16]) -> Option<EntryKind>
    ensures { result ≡ find (λ kind. bytes_eq word.now (kind_word kind)) kinds.now }
{
    kinds
        .iter()
        .copied()
        .find(|kind| same_text(word, kind_word(*kind).as_bytes()))
}

/// The kind of a word.
#[tactic(auto, unfolding(crate::specs::Values::kind_named))]
fn kind_named(word: &[u16]) -> Option<EntryKind>
    ensures { result ≡ kind_named word.now }
{
    kind_among(&KINDS, word)
}

/// The kind that a token names.
pub(crate) fn kind(token: &Token) -> Result<EntryKind, Unread>
    ensures { Reads result (kind_in token.now) }
{
    match token {
        Token::Bare(word) => kind_named(word.as_slice()).ok_or(Unread::IllFormed),
        _ => Err(Unread::IllFormed),
    }
}

/// The value of an entry of a kind.
pub(crate) fn value(alloc: Global, kind: EntryKind, operands: &[Token]) -> Result<PoolValue, Unread>
    ensures { Reads result (value_in kind operands.now) }
{
    match kind {
        EntryKind::Text => Ok(PoolValue::Text(quoted(alloc, just_one(operands)?)?)),
        EntryKind::Number(kind) => {
            let number = number(just_one(operands)?)?;
            Ok(PoolValue::Number { kind, number })
        }
        EntryKind::Index(kind) => {
            let index = index(just_one(operands)?)?;
            Ok(PoolValue::Index { kind, index })
        }
        EntryKind::Indices(kind) => {
            let (first, second) = just_two(operands)?;
            Ok(PoolValue::Indices {
                kind,
                first: index(first)?,
                second: index(second)?,
            })
        }
        EntryKind::NumberAndIndex(kind) => {
            let (first, second) = just_two(operands)?;
            Ok(PoolValue::NumberAndIndex {
                kind,
                number: number(first)?,
                index: index(second)?,
            })
        }
    }
}
