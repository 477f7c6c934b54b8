//! Operands, each of one token.
#![tactic(auto)]

ghost use Rattle.std.specs.Prelude.{◌≡◌, ◌∷◌, List, ℕ, option_map, Option, Some, None, IfOk, IfSome, length, ◌<◌, ◌==◌, position};
ghost use Rattle.mvm_statement.specs.Reading.{Reads};
ghost use Rattle.mvm_statement.specs.Numbers.{numeral};
ghost use Rattle.mvm_statement.specs.Operands.{number_in, units_in, index_in, reference_in, member_in, named_member, loadable_in, integer_or_class, long_in, initial_in, place_in, behind_mark, cut, is_bare, hash, at_sign, or_word, number, reference};

use crate::fault::Unread;
use crate::numbers::{numeral, split_unit};
use crate::operand::{Initial, Loadable, LongConstant, Member, Place, Reference};
use crate::token::Token;
use mvm_base::Name;
use mvm_layout::pool::same_text;
use std::alloc::{AllocError, Global};

/// The mark of an index.
const HASH: u16 = 35;

/// The mark of a place.
const AT_SIGN: u16 = 64;

/// A name of these units.
pub(crate) fn copied(alloc: Global, units: &[u16]) -> Result<Name, AllocError>
    ensures { IfOk result (λ name. name ≡ units.now) }
{
    Ok(Name::from_vec(Vec::from_slice(alloc, units)?))
}

/// What stands behind a mark that a word begins with.
fn behind_mark(mark: u16, word: &[u16]) -> Option<&[u16]>
    ensures { option_map (λ rest. rest.now) result ≡ behind_mark mark word.now }
{
    let (first, rest) = split_unit(word)?;
    if first == mark { Some(rest) } else { None }
}

/// The number that these units spell.
fn number_of(word: &[u16]) -> Result<i128, Unread>
    ensures { Reads result (numeral word.now) }
{
    numeral(word).ok_or(Unread::IllFormed)
}

/// A number.
pub(crate) fn number(token: &Token) -> Result<i128, Unread>
    ensures { Reads result (number_in token.now) }
{
    match token {
        Token::Bare(word) => number_of(word.as_slice()),
        _ => Err(Unread::IllFormed),
    }
}

/// A quoted text.
pub(crate) fn quoted(alloc: Global, token: &Token) -> Result<Name, Unread>
    ensures { Reads result (units_in token.now) }
{
    match token {
        Token::Quoted(units) => Ok(copied(alloc, units.as_slice())?),
        _ => Err(Unread::IllFormed),
    }
}

/// `#n` alone.
pub(crate) fn index(token: &Token) -> Result<i128, Unread>
    ensures { Reads result (index_in token.now) }
{
    match token {
        Token::Bare(word) => match behind_mark(HASH, word.as_slice()) {
            Some(digits) => number_of(digits),
            None => Err(Unread::IllFormed),
        },
        _ => Err(Unread::IllFormed),
    }
}

/// `#n`, or a word: the name of a class, or a text that is a name or a descriptor.
pub(crate) fn reference(alloc: Global, token: &Token) -> Result<Reference, Unread>
    ensures { Reads result (reference_in token.now) }
{
    match token {
        Token::Bare(word) => match behind_mark(HASH, word.as_slice()) {
            Some(digits) => Ok(Reference::Indexed(number_of(digits)?)),
            None => Ok(Reference::Named(copied(alloc, word.as_slice())?)),
        },
        _ => Err(Unread::IllFormed),
    }
}

/// The place of the first of a mark.
fn place_of(mark: u16, word: &[u16]) -> Option<usize>
    ensures value { result ≡ position (λ unit. unit == mark) word.now }
    ensures within { IfSome result (λ place. place < length word.now) }
{
    word.iter().position(|unit| *unit == mark)
}

/// What stands before the first of a mark, and what behind it.
fn cut(mark: u16, word: &[u16]) -> Option<(&[u16], &[u16])>
    ensures { option_map (λ x. (x.0.now, x.1.now)) result ≡ cut mark word.now }
{
    let place = place_of(mark, word)?;
    let (front, _) = word.split_at(place);
    let (_, rest) = word.split_at(place + 1);
    Some((front, rest))
}

/// `Class.name:desc`.
fn named_member(alloc: Global, word: &[u16]) -> Result<Member, Unread>
    ensures { Reads result (named_member word.now) }
{
    let (class, rest) = cut(46, word).ok_or(Unread::IllFormed)?;
    let (name, desc) = cut(58, rest).ok_or(Unread::IllFormed)?;
    Ok(Member::Named {
        class: copied(alloc, class)?,
        name: copied(alloc, name)?,
        desc: copied(alloc, desc)?,
    })
}

/// `#n`, or a member by name.
pub(crate) fn member(alloc: Global, token: &Token) -> Result<Member, Unread>
    ensures { Reads result (member_in token.now) }
{
    match token {
        Token::Bare(word) => match behind_mark(HASH, word.as_slice()) {
            Some(digits) => Ok(Member::Indexed(number_of(digits)?)),
            None => named_member(alloc, word.as_slice()),
        },
        _ => Err(Unread::IllFormed),
    }
}

/// A number, or the name of a class, which is any other word.
fn integer_or_class(alloc: Global, word: &[u16]) -> Result<Loadable, AllocError>
    ensures { IfOk result (λ x. x ≡ integer_or_class (numeral word.now) word.now) }
{
    match numeral(word) {
        Some(number) => Ok(Loadable::Integer(number)),
        None => Ok(Loadable::Class(copied(alloc, word)?)),
    }
}

/// `#n`, a number, a quoted text, or the name of a class.
pub(crate) fn loadable(alloc: Global, token: &Token) -> Result<Loadable, Unread>
    ensures { Reads result (loadable_in token.now) }
{
    match token {
        Token::Bare(word) => match behind_mark(HASH, word.as_slice()) {
            Some(digits) => Ok(Loadable::Indexed(number_of(digits)?)),
            None => Ok(integer_or_class(alloc, word.as_slice())?),
        },
        Token::Quoted(units) => Ok(Loadable::Text(copied(alloc, units.as_slice())?)),
        Token::Broken => Err(Unread::IllFormed),
    }
}

/// `#n` or a number.
pub(crate) fn long_constant(token: &Token) -> Result<LongConstant, Unread>
    ensures { Reads result (long_in token.now) }
{
    match token {
        Token::Bare(word) => match behind_mark(HASH, word.as_slice()) {
            Some(digits) => Ok(LongConstant::Indexed(number_of(digits)?)),
            None => Ok(LongConstant::Long(number_of(word.as_slice())?)),
        },
        _ => Err(Unread::IllFormed),
    }
}

/// `#n`, a number or a quoted text.
pub(crate) fn initial(alloc: Global, token: &Token) -> Result<Initial, Unread>
    ensures { Reads result (initial_in token.now) }
{
    match token {
        Token::Bare(word) => match behind_mark(HASH, word.as_slice()) {
            Some(digits) => Ok(Initial::Indexed(number_of(digits)?)),
            None => Ok(Initial::Number(number_of(word.as_slice())?)),
        },
        Token::Quoted(units) => Ok(Initial::Text(copied(alloc, units.as_slice())?)),
        Token::Broken => Err(Unread::IllFormed),
    }
}

/// `@N` or a label.
pub(crate) fn place(alloc: Global, token: &Token) -> Result<Place, Unread>
    ensures { Reads result (place_in token.now) }
{
    match token {
        Token::Bare(word) => match behind_mark(AT_SIGN, word.as_slice()) {
            Some(digits) => Ok(Place::At(number_of(digits)?)),
            None => Ok(Place::Label(copied(alloc, word.as_slice())?)),
        },
        _ => Err(Unread::IllFormed),
    }
}

/// Whether a token is this word.
pub(crate) fn is_bare(wanted: &str, token: &Token) -> bool
    ensures { result ≡ is_bare wanted.now token.now }
{
    match token {
        Token::Bare(word) => same_text(word.as_slice(), wanted.as_bytes()),
        _ => false,
    }
}

/// The word, which stands for none, or a reference.
pub(crate) fn reference_or(
    alloc: Global,
    word: &str,
    token: &Token,
) -> Result<Option<Reference>, Unread>
    ensures { Reads result ((or_word word.now reference).read token.now) }
{
    if is_bare(word, token) {
        return Ok(None);
    }
    Ok(Some(reference(alloc, token)?))
}
