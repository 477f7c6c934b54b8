ghost use Rattle.std.specs.Prelude.{◌≡◌, ◌+◌, ◌<◌, ◌≤◌, ◌∷◌, ◌++◌, ◌&&◌, length, drop, is_some, decimal, OnOk, IfSome};
ghost use Rattle.std.specs.Char.Utf16.{utf16_chars, lone_unit_char, surrogate_pair_char, is_high_surrogate, is_low_surrogate};
ghost use Rattle.std.specs.Fmt.{signed_decimal};
ghost use Rattle.mvm.specs.Texts.{shown, shown_character};

use itoa::Buffer;
use mvm_base::Line;
use std::alloc::AllocError;

/// Adds the characters of UTF-16 units at the end of a text. A surrogate without a partner and a control character
/// are written as a question mark.
pub fn push_units(text: &mut Line, units: &[u16]) -> Result<(), AllocError>
    ensures ok { OnOk result (text.new ≡ text.old ++ shown units.now) }
{
    let mut rest = units;
    while !rest.is_empty() {
        let (character, taken) = first_character(rest);
        push_character(text, character)?;
        let (_, after) = rest.split_at(taken);
        rest = after;
    }
    Ok(())
}

/// Adds a number at the end of a text, in decimal.
pub fn push_number(text: &mut Line, number: u64) -> Result<(), AllocError>
    ensures ok { OnOk result (text.new ≡ text.old ++ decimal number) }
{
    let mut digits = Buffer::new();
    text.push_str(digits.format(number))
}

/// Adds a number that can be below 0 at the end of a text, in decimal.
pub fn push_signed(text: &mut Line, number: i32) -> Result<(), AllocError>
    ensures ok { OnOk result (text.new ≡ text.old ++ signed_decimal number) }
{
    let mut digits = Buffer::new();
    text.push_str(digits.format(number))
}

// Adds one character, or a question mark in its place.
fn push_character(text: &mut Line, character: Option<char>) -> Result<(), AllocError>
    ensures ok { OnOk result (text.new ≡ text.old ++ shown_character character) }
{
    let Some(character) = character else {
        return text.push_str("?");
    };
    if u32::from(character) < 32 {
        text.push_str("?")
    } else {
        text.push(character)
    }
}

// The first character, unless that is a surrogate without a partner, and how many units it has.
#[tactic(auto, using(crate::proofs::Characters::chars_of_one, crate::proofs::Characters::chars_alone, crate::proofs::Characters::chars_paired))]
pub(crate) fn first_character(units: &[u16]) -> (Option<char>, usize)
    requires { 0 < length units.now }
    ensures first { utf16_chars units.now ≡ result.0 ∷ utf16_chars (drop result.1 units.now) }
    ensures some { 0 < result.1 }
    ensures within { result.1 ≤ length units.now }
{
    if units.len() < 2 {
        return (single(units[0]), 1);
    }
    match pair(units[0], units[1]) {
        Some(character) => (Some(character), 2),
        None => (single(units[0]), 1),
    }
}

// The character of a unit that is in no pair.
fn single(unit: u16) -> Option<char>
    ensures { result ≡ lone_unit_char unit }
{
    char::from_u32(u32::from(unit))
}

// The character of two units, if they are a pair of surrogates.
fn pair(high: u16, low: u16) -> Option<char>
    ensures test { is_some result ≡ (is_high_surrogate high && is_low_surrogate low) }
    ensures value { IfSome result (λ character. character ≡ surrogate_pair_char high low) }
{
    if 0xD800 <= high && high < 0xDC00 && 0xDC00 <= low && low < 0xE000 {
        let upper = u32::from(high) - 0xD800;
        let lower = u32::from(low) - 0xDC00;
        char::from_u32(0x1_0000 + upper * 0x400 + lower)
    } else {
        None
    }
}
