//! The number that a word spells.
#![tactic(auto)]

ghost use Rattle.std.specs.Prelude.{◌≡◌, ◌+◌, ◌*◌, ◌≤◌, ◌∷◌, [], min, option_map, IfSome, IfNone};
ghost use Rattle.std.specs.Char.{digit_value};
ghost use Rattle.mvm_statement.specs.Numbers.{digits_in, hexadecimal, marked, numeral, too_large};

/// A number that no field of a class file holds.
const TOO_LARGE: u128 = 1 << 64;

/// The value of a digit or a letter as a digit, and 36 for any other unit.
fn digit_value(unit: u16) -> u16
    ensures { result ≡ digit_value unit }
{
    match unit {
        48..=57 => unit - 48,
        65..=90 => unit - 55,
        97..=122 => unit - 87,
        _ => 36,
    }
}

/// The number so far with one more digit, or the least that is too large.
fn with_digit(radix: u8, value: u128, digit: u16) -> u128
    requires { value ≤ too_large }
    ensures { result ≡ min (value * radix + digit) too_large }
{
    let more = value * u128::from(radix) + u128::from(digit);
    more.min(TOO_LARGE)
}

/// The number that digits spell: one digit or more, and nothing else.
fn digits_in(radix: u8, digits: &[u16]) -> Option<u128>
    requires { 1 ≤ radix }
    ensures value { result ≡ digits_in radix digits.now }
    ensures within { IfSome result (λ n. n ≤ too_large) }
{
    if digits.is_empty() {
        return None;
    }
    let mut value = 0;
    for unit in digits {
        let digit = digit_value(*unit);
        if digit >= u16::from(radix) {
            return None;
        }
        value = with_digit(radix, value, digit);
    }
    Some(value)
}

/// The unit at the front, and those behind it.
pub(crate) fn split_unit(word: &[u16]) -> Option<(u16, &[u16])>
    ensures some { IfSome result (λ x. word.now ≡ x.0 ∷ x.1.now) }
    ensures none { IfNone result (word.now ≡ []) }
{
    if word.is_empty() {
        return None;
    }
    let (_, rest) = word.split_at(1);
    Some((word[0], rest))
}

/// What stands behind a 0, if it is an x and hexadecimal digits.
fn hexadecimal(word: &[u16]) -> Option<i128>
    ensures { result ≡ hexadecimal word.now }
{
    let (first, digits) = split_unit(word)?;
    if first != u16::from(b'x') {
        return None;
    }
    let number = digits_in(16, digits)?;
    Some(number as i128)
}

/// The number with a minus before it, or in hexadecimal digits.
fn marked(word: &[u16]) -> Option<i128>
    ensures { result ≡ marked word.now }
{
    let (first, rest) = split_unit(word)?;
    if first == u16::from(b'-') {
        let number = digits_in(10, rest)?;
        return Some(-(number as i128));
    }
    if first == u16::from(b'0') {
        return hexadecimal(rest);
    }
    None
}

/// The number that a word spells. It looks at each unit twice at most.
#[tactic(auto, unfolding(crate::specs::Numbers::numeral))]
pub(crate) fn numeral(word: &[u16]) -> Option<i128>
    ensures { result ≡ numeral word.now }
{
    match digits_in(10, word) {
        Some(number) => Some(number as i128),
        None => marked(word),
    }
}
