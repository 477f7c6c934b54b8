//! The tokens of a line, read in one pass over its characters.
#![tactic(auto, unfolding(crate::specs::Tokens::step))]

ghost use Rattle.std.specs.Prelude.{◌≡◌, ◌++◌, IfOk, OnOk, option_to_list, chars};
ghost use Rattle.std.specs.Char.{digit_value};
ghost use Rattle.mvm_statement.specs.Tokens.{is_blank, units_of, word_end, step, at_end, tokens};
ghost use Rattle.mvm_statement.specs.declared.token.Mode.TheVariants.{Between, InWord, InQuotes, Escaped, InUnit, Closed};

use crate::token::{Mode, Step, Token};
use mvm_base::List;
use std::alloc::{AllocError, Global};

/// Whether a character stands between tokens.
fn is_blank(c: char) -> bool
    ensures { result ≡ is_blank c }
{
    c == ' ' || c == '\t'
}

/// Adds the units of a character.
fn push_units(units: &mut List<u16>, c: char) -> Result<(), AllocError>
    ensures { OnOk result (units.new ≡ units.old ++ units_of c) }
{
    let code = c as u32;
    if code < 65536 {
        units.push(code as u16)?;
    } else {
        let above = code - 65536;
        units.push((55296 + above / 1024) as u16)?;
        units.push((56320 + above % 1024) as u16)?;
    }
    Ok(())
}

/// What the end of a word makes of it.
fn word_end(word: List<u16>) -> Step
    ensures { result ≡ word_end word }
{
    if word.as_slice() == [59_u16].as_slice() {
        Step::Ends(None)
    } else {
        Step::Gives(Token::Bare(word))
    }
}

fn between(alloc: Global, c: char) -> Result<Step, AllocError>
    ensures { IfOk result (λ s. s ≡ step Between c) }
{
    if is_blank(c) {
        return Ok(Step::Goes(Mode::Between));
    }
    let mut units = List::new(alloc);
    if c == '"' {
        return Ok(Step::Goes(Mode::InQuotes(units)));
    }
    push_units(&mut units, c)?;
    Ok(Step::Goes(Mode::InWord(units)))
}

fn in_word(mut word: List<u16>, c: char) -> Result<Step, AllocError>
    ensures { IfOk result (λ s. s ≡ step (InWord word) c) }
{
    if is_blank(c) {
        return Ok(word_end(word));
    }
    push_units(&mut word, c)?;
    Ok(Step::Goes(Mode::InWord(word)))
}

fn in_quotes(mut units: List<u16>, c: char) -> Result<Step, AllocError>
    ensures { IfOk result (λ s. s ≡ step (InQuotes units) c) }
{
    if c == '"' {
        return Ok(Step::Goes(Mode::Closed(units)));
    }
    if c == '\\' {
        return Ok(Step::Goes(Mode::Escaped(units)));
    }
    push_units(&mut units, c)?;
    Ok(Step::Goes(Mode::InQuotes(units)))
}

fn escaped(mut units: List<u16>, c: char) -> Result<Step, AllocError>
    ensures { IfOk result (λ s. s ≡ step (Escaped units) c) }
{
    if c == '"' || c == '\\' {
        units.push(c as u32 as u16)?;
        return Ok(Step::Goes(Mode::InQuotes(units)));
    }
    if c == 'u' {
        return Ok(Step::Goes(Mode::InUnit {
            more: 3,
            value: 0,
            units,
        }));
    }
    Ok(Step::Ends(Some(Token::Broken)))
}

/// The value of a digit or a letter as a digit, and 36 for any other character.
fn digit_value(c: char) -> u16
    ensures { result ≡ digit_value c }
{
    let code = c as u32;
    let value = match code {
        48..=57 => code - 48,
        65..=90 => code - 55,
        97..=122 => code - 87,
        _ => 36,
    };
    value as u16
}

fn in_unit(more: u8, value: u16, mut units: List<u16>, c: char) -> Result<Step, AllocError>
    ensures { IfOk result (λ s. s ≡ step (InUnit more value units) c) }
{
    let digit = digit_value(c);
    if digit >= 16 {
        return Ok(Step::Ends(Some(Token::Broken)));
    }
    let value = 16 * (value % 4096) + digit;
    if more == 0 {
        units.push(value)?;
        return Ok(Step::Goes(Mode::InQuotes(units)));
    }
    Ok(Step::Goes(Mode::InUnit {
        more: more - 1,
        value,
        units,
    }))
}

fn closed(units: List<u16>, c: char) -> Step
    ensures { result ≡ step (Closed units) c }
{
    if is_blank(c) {
        Step::Gives(Token::Quoted(units))
    } else {
        Step::Ends(Some(Token::Broken))
    }
}

/// What the next character makes of it.
fn stepped(alloc: Global, mode: Mode, c: char) -> Result<Step, AllocError>
    ensures { IfOk result (λ s. s ≡ step mode c) }
{
    match mode {
        Mode::Between => between(alloc, c),
        Mode::InWord(word) => in_word(word, c),
        Mode::InQuotes(units) => in_quotes(units, c),
        Mode::Escaped(units) => escaped(units, c),
        Mode::InUnit { more, value, units } => in_unit(more, value, units, c),
        Mode::Closed(units) => Ok(closed(units, c)),
    }
}

/// What the end of the line makes of it.
fn ended(mode: Mode) -> Option<Token>
    ensures { option_to_list result ≡ at_end mode }
{
    match mode {
        Mode::Between => None,
        Mode::InWord(word) => match word_end(word) {
            Step::Gives(token) => Some(token),
            Step::Ends(token) => token,
            Step::Goes(_mode) => None,
        },
        Mode::Closed(units) => Some(Token::Quoted(units)),
        Mode::InQuotes(_units) => Some(Token::Broken),
        Mode::Escaped(_units) => Some(Token::Broken),
        Mode::InUnit {
            more: _more,
            value: _value,
            units: _units,
        } => Some(Token::Broken),
    }
}

/// Adds a token, if there is one.
fn push_some(tokens: &mut List<Token>, token: Option<Token>) -> Result<(), AllocError>
    ensures { OnOk result (tokens.new ≡ tokens.old ++ option_to_list token) }
{
    if let Some(token) = token {
        tokens.push(token)?;
    }
    Ok(())
}

/// The tokens of a line. It looks at each character once.
pub(crate) fn tokens(alloc: Global, line: &str) -> Result<List<Token>, AllocError>
    ensures { IfOk result (λ ts. ts ≡ tokens (chars line.now)) }
{
    let mut done = List::new(alloc);
    let mut mode = Mode::Between;
    for c in line.chars() {
        match stepped(alloc, mode, c)? {
            Step::Goes(next) => {
                mode = next;
            }
            Step::Gives(token) => {
                done.push(token)?;
                mode = Mode::Between;
            }
            Step::Ends(token) => {
                push_some(&mut done, token)?;
                return Ok(done);
            }
        }
    }
    push_some(&mut done, ended(mode))?;
    Ok(done)
}
