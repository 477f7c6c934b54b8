ghost use Rattle.std.specs.Prelude.{◌≡◌};
ghost use Rattle.mvm_native.specs.Integers.{capped, negative, numeral, parse_int, parsed, positive};
ghost use Rattle.mvm_native.specs.Machine.{machine_of, Called};
ghost use Rattle.mvm_native.specs.Texts.{IsTextOrNull};

use crate::env::Env;
use crate::out::{Out, Thrown, gives};
use crate::string::whole_text;
use mvm_base::{OutOfMemory, Word};

/// The value of one or more digits, unless it is above 2^31.
fn numeral(units: &[u16]) -> Option<u64>
    ensures { result ≡ capped (numeral units.now) }
{
    if units.is_empty() {
        return None;
    }
    let mut value = 0u64;
    for unit in units {
        if *unit < 48 || 58 <= *unit {
            return None;
        }
        value = value * 10 + u64::from(*unit - 48);
        if 2_147_483_648 < value {
            return None;
        }
    }
    Some(value)
}

/// The int of these digits.
#[tactic(auto, using(crate::proofs::Capped::positive_capped))]
fn positive(units: &[u16]) -> Option<i32>
    ensures { result ≡ positive (numeral units.now) }
{
    match numeral(units) {
        Some(n) => {
            if n < 2_147_483_648 {
                Some(n as i32)
            } else {
                None
            }
        }
        None => None,
    }
}

/// The negative of the int of these digits.
#[tactic(auto, using(crate::proofs::Capped::negative_capped))]
fn negative(units: &[u16]) -> Option<i32>
    ensures { result ≡ negative (numeral units.now) }
{
    match numeral(units) {
        Some(0) => Some(0),
        Some(n) => {
            if n <= 2_147_483_648 {
                Some((0 - (n - 1) as i64 - 1) as i32)
            } else {
                None
            }
        }
        None => None,
    }
}

/// The int of an optional sign and digits.
#[tactic(auto, unfolding(crate::specs::Integers::parsed))]
fn parsed(units: &[u16]) -> Option<i32>
    ensures { result ≡ parsed units.now }
{
    match units {
        [43, rest @ ..] => positive(rest),
        [45, rest @ ..] => negative(rest),
        _ => positive(units),
    }
}

/// `Integer.parseInt` of a text or null.
#[tactic(auto, unfolding(crate::specs::Integers::parse_int))]
pub fn parse_int(env: &Env, value: Word) -> Result<Out, OutOfMemory>
    requires { IsTextOrNull env.now.heap.state.objects value }
    ensures { Called result (parse_int value (machine_of env.now), machine_of env.now) (machine_of env.now) (machine_of env.now) }
{
    let Word::Ref(string) = value else {
        return Ok(Out::Throw(Thrown::NumberFormatException));
    };
    let units = whole_text(env.alloc, &env.heap, string)?;
    match parsed(&units) {
        Some(n) => Ok(gives(Word::Int(n))),
        None => Ok(Out::Throw(Thrown::NumberFormatException)),
    }
}
