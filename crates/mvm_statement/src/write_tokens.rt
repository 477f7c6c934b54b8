//! Tokens, written at the end of a line.
#![tactic(auto)]

ghost use Rattle.std.specs.Prelude.{◌≡◌, ◌<◌, ◌/◌, ◌%◌, ◌++◌, ◌∷◌, [], OnOk};
ghost use Rattle.std.specs.List.{flat_map};
ghost use Rattle.std.specs.Fmt.{signed_decimal};
ghost use Rattle.mvm_statement.specs.Tokens.{spelled_letter, spelled_word, hex_digit, spelled_unit, spelled_token};
ghost use Rattle.mvm_statement.specs.declared.token.Token.TheVariants.{Quoted};

use itoa::Buffer;
use mvm_base::Line;
use std::alloc::AllocError;

/// Adds an ASCII character.
#[tactic(auto, using(std::proofs::lemmas::Str::encode_ascii))]
fn push_ascii(out: &mut Line, code: u8) -> Result<(), AllocError>
    requires { code < 128 }
    ensures ok { OnOk result (out.new ≡ out.old ++ code ∷ []) }
{
    out.push(char::from(code))
}

/// A unit of a word, or a question mark for one that is no letter.
fn letter(unit: u16) -> u8
    ensures value { result ≡ spelled_letter unit }
    ensures ascii { result < 128 }
{
    if 32 < unit && unit < 127 {
        unit as u8
    } else {
        63
    }
}

/// Adds a word of these units.
pub(crate) fn push_word(out: &mut Line, word: &[u16]) -> Result<(), AllocError>
    ensures ok { OnOk result (out.new ≡ out.old ++ spelled_word word.now) }
{
    for unit in word {
        push_ascii(out, letter(*unit))?;
    }
    Ok(())
}

/// Adds a word of these letters.
pub(crate) fn push_text(out: &mut Line, word: &str) -> Result<(), AllocError>
    ensures ok { OnOk result (out.new ≡ out.old ++ spelled_word word.now) }
{
    for byte in word.as_bytes() {
        push_ascii(out, letter(u16::from(*byte)))?;
    }
    Ok(())
}

/// Adds a number.
pub(crate) fn push_number(out: &mut Line, number: i128) -> Result<(), AllocError>
    ensures ok { OnOk result (out.new ≡ out.old ++ spelled_word (signed_decimal number)) }
{
    let mut digits = Buffer::new();
    push_text(out, digits.format(number))
}

/// A hexadecimal digit.
fn hex_digit(digit: u16) -> u8
    requires { digit < 16 }
    ensures value { result ≡ hex_digit digit }
    ensures ascii { result < 128 }
{
    if digit < 10 {
        48 + digit as u8
    } else {
        55 + digit as u8
    }
}

/// Adds the four digits of a unit.
fn push_digits(out: &mut Line, unit: u16) -> Result<(), AllocError>
    ensures ok { OnOk result (out.new ≡ out.old ++ hex_digit (unit / 4096) ∷ hex_digit (unit / 256 % 16) ∷ hex_digit (unit / 16 % 16) ∷ hex_digit (unit % 16) ∷ []) }
{
    push_ascii(out, hex_digit(unit / 4096))?;
    push_ascii(out, hex_digit(unit / 256 % 16))?;
    push_ascii(out, hex_digit(unit / 16 % 16))?;
    push_ascii(out, hex_digit(unit % 16))
}

/// Adds a unit of a quoted text.
#[tactic(auto, unfolding(crate::specs::Tokens::spelled_unit))]
fn push_unit(out: &mut Line, unit: u16) -> Result<(), AllocError>
    ensures ok { OnOk result (out.new ≡ out.old ++ spelled_unit unit) }
{
    if unit == 34 || unit == 92 {
        out.push_str("\\")?;
        return push_ascii(out, unit as u8);
    }
    if 32 <= unit && unit <= 126 {
        return push_ascii(out, unit as u8);
    }
    out.push_str("\\u")?;
    push_digits(out, unit)
}

/// Adds the units of a quoted text.
fn push_units(out: &mut Line, units: &[u16]) -> Result<(), AllocError>
    ensures ok { OnOk result (out.new ≡ out.old ++ flat_map spelled_unit units.now) }
{
    for unit in units {
        push_unit(out, *unit)?;
    }
    Ok(())
}

/// Adds a quoted text.
pub(crate) fn push_quoted(out: &mut Line, units: &[u16]) -> Result<(), AllocError>
    ensures ok { OnOk result (out.new ≡ out.old ++ spelled_token (Quoted units.now)) }
{
    out.push_str("\"")?;
    push_units(out, units)?;
    out.push_str("\"")
}
