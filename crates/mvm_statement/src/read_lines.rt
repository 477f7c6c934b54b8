//! The operands of a line, all that stands behind its first word.
#![tactic(auto)]

ghost use Rattle.std.specs.Prelude.{◌≡◌, ◌∷◌, [], Some, None, MatchResult};
ghost use Rattle.mvm_statement.specs.Reading.{Reads};
ghost use Rattle.mvm_statement.specs.Lines.{read_nothing, just_one, just_two, just_three, just_four, before_default, places_in, rows_in, key_row, targets, rows};

use crate::fault::Unread;
use crate::operand::{KeyRow, Place};
use crate::read_operands::{is_bare, number, place};
use crate::token::Token;
use mvm_base::List;
use std::alloc::Global;

/// No operands.
pub(crate) fn nothing(operands: &[Token]) -> Result<(), Unread>
    ensures { Reads result (read_nothing operands.now) }
{
    match operands {
        [] => Ok(()),
        _ => Err(Unread::IllFormed),
    }
}

/// The one operand.
pub(crate) fn just_one(operands: &[Token]) -> Result<&Token, Unread>
    ensures { MatchResult result (λ a. just_one operands.now ≡ Some a.now) (λ _. just_one operands.now ≡ None) }
{
    match operands {
        [a] => Ok(a),
        _ => Err(Unread::IllFormed),
    }
}

/// The two operands.
pub(crate) fn just_two(operands: &[Token]) -> Result<(&Token, &Token), Unread>
    ensures { MatchResult result (λ x. just_two operands.now ≡ Some (x.0.now, x.1.now)) (λ _. just_two operands.now ≡ None) }
{
    match operands {
        [a, b] => Ok((a, b)),
        _ => Err(Unread::IllFormed),
    }
}

/// The three operands.
pub(crate) fn just_three(operands: &[Token]) -> Result<(&Token, &Token, &Token), Unread>
    ensures { MatchResult result (λ x. just_three operands.now ≡ Some (x.0.now, (x.1.now, x.2.now))) (λ _. just_three operands.now ≡ None) }
{
    match operands {
        [a, b, c] => Ok((a, b, c)),
        _ => Err(Unread::IllFormed),
    }
}

/// The four operands.
pub(crate) fn just_four(operands: &[Token]) -> Result<(&Token, &Token, &Token, &Token), Unread>
    ensures { MatchResult result (λ x. just_four operands.now ≡ Some (x.0.now, (x.1.now, (x.2.now, x.3.now)))) (λ _. just_four operands.now ≡ None) }
{
    match operands {
        [a, b, c, d] => Ok((a, b, c, d)),
        _ => Err(Unread::IllFormed),
    }
}

/// The operand at the front, and those behind it.
pub(crate) fn first_of(operands: &[Token]) -> Result<(&Token, &[Token]), Unread>
    ensures { MatchResult result (λ x. operands.now ≡ x.0.now ∷ x.1.now) (λ _. operands.now ≡ []) }
{
    if operands.is_empty() {
        return Err(Unread::IllFormed);
    }
    let (_, rest) = operands.split_at(1);
    Ok((&operands[0], rest))
}

/// What stands before `default PLACE` at the end, and the token of that place.
fn before_default(operands: &[Token]) -> Result<(&[Token], &Token), Unread>
    ensures { MatchResult result (λ x. before_default operands.now ≡ Some (x.0.now, x.1.now)) (λ _. before_default operands.now ≡ None) }
{
    if operands.len() < 2 {
        return Err(Unread::IllFormed);
    }
    let (front, ending) = operands.split_at(operands.len() - 2);
    let (word, place) = just_two(ending)?;
    if !is_bare("default", word) {
        return Err(Unread::IllFormed);
    }
    Ok((front, place))
}

/// A place each.
fn places(alloc: Global, operands: &[Token]) -> Result<List<Place>, Unread>
    ensures { Reads result (places_in operands.now) }
{
    let mut all = List::new(alloc);
    for token in operands {
        all.push(place(alloc, token)?)?;
    }
    Ok(all)
}

/// The places of the keys from the lowest on, and the place for the others.
pub(crate) fn targets(alloc: Global, operands: &[Token]) -> Result<(List<Place>, Place), Unread>
    ensures { Reads result (targets.read operands.now) }
{
    let (front, otherwise) = before_default(operands)?;
    let targets = places(alloc, front)?;
    let otherwise = place(alloc, otherwise)?;
    Ok((targets, otherwise))
}

/// A key and the place for it.
fn key_row(alloc: Global, key: &Token, target: &Token) -> Result<KeyRow, Unread>
    ensures { Reads result (key_row key.now target.now) }
{
    Ok(KeyRow {
        key: number(key)?,
        target: place(alloc, target)?,
    })
}

/// A key and a place each.
fn key_rows(alloc: Global, operands: &[Token]) -> Result<List<KeyRow>, Unread>
    ensures { Reads result (rows_in operands.now) }
{
    let mut all = List::new(alloc);
    let mut rest = operands;
    while !rest.is_empty() {
        let (key, behind) = first_of(rest)?;
        let (target, behind) = first_of(behind)?;
        all.push(key_row(alloc, key, target)?)?;
        rest = behind;
    }
    Ok(all)
}

/// The keys with a place for each, and the place for the others.
pub(crate) fn rows(alloc: Global, operands: &[Token]) -> Result<(List<KeyRow>, Place), Unread>
    ensures { Reads result (rows.read operands.now) }
{
    let (front, otherwise) = before_default(operands)?;
    let rows = key_rows(alloc, front)?;
    let otherwise = place(alloc, otherwise)?;
    Ok((rows, otherwise))
}
