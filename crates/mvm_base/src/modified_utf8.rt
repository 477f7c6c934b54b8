ghost use Rattle.std.specs.Prelude.{◌≡◌, ◌<◌, ◌≤◌, ◌^◌, ℕ, List as Units, [], ◌∷◌, ◌++◌, length, ◌≢◌, ◌+◌, Ok, Err, IfOk, IfSome, IfNone, OnOk};
ghost use Rattle.mvm_base.specs.ModifiedUtf8.{is_one_byte, spelled, spelled_all, AreUnits, BeginsNone, IsBad, Begins};
ghost use Rattle.mvm_base.specs.Answers.{AnswersUnless};

use crate::list::List;
use crate::memory::OutOfMemory;
use crate::name::Name;
use std::alloc::{AllocError, AllocFailed, Global};

/// Why bytes are not the modified UTF-8 of a text (JVM Specification 4.4.7).
#[derive(Clone, Copy, Debug, PartialEq, Eq)]
pub enum Utf8Fault {
    /// At this place, counted from 0, stands the spelling of no unit: a byte that can't begin one, a spelling that
    /// is cut off or broken, or one that is not the shortest of its unit.
    Bad(u32),
    /// Memory was wanted and was not to be had. No clause says when it comes.
    OutOfMemory,
}

impl From<AllocError> for Utf8Fault {
    ghost use Rattle.std.specs.Prelude.{◌≡◌};
    ghost use Rattle.mvm_base.specs.declared.modified_utf8.Utf8Fault.TheVariants.{OutOfMemory};

    ghost from_gives = { λ _ e. e ≡ OutOfMemory };

    fn from(_refused: AllocError) -> Utf8Fault {
        Utf8Fault::OutOfMemory
    }
}

impl<T: Drop> From<AllocFailed<T>> for Utf8Fault {
    ghost use Rattle.std.specs.Prelude.{◌≡◌};
    ghost use Rattle.mvm_base.specs.declared.modified_utf8.Utf8Fault.TheVariants.{OutOfMemory};

    ghost from_gives = { λ _ e. e ≡ OutOfMemory };

    fn from(_refused: AllocFailed<T>) -> Utf8Fault {
        Utf8Fault::OutOfMemory
    }
}

/// Whether a unit has a spelling of one byte.
fn is_one_byte(unit: u16) -> bool
    ensures { result ≡ is_one_byte unit }
{
    0 < unit && unit < 128
}

/// The byte at the front, and those after it.
fn split_byte(bytes: &[u8]) -> Option<(u8, &[u8])>
    ensures some { IfSome result (λ x. bytes.now ≡ x.0 ∷ x.1.now) }
    ensures none { IfNone result (bytes.now ≡ []) }
{
    if bytes.is_empty() {
        return None;
    }
    let (_, rest) = bytes.split_at(1);
    Some((bytes[0], rest))
}

/// The low six bits of the byte at the front, where it is one that is not the first of its unit, and the bytes after it.
fn next_six(bytes: &[u8]) -> Option<(u16, &[u8])>
    ensures some { IfSome result (λ x. bytes.now ≡ (128 + x.0) ∷ x.1.now) }
    ensures low { IfSome result (λ x. x.0 < 64) }
    ensures none { IfNone result ((low : ℕ) (more : Units ℕ) → low < 64 → bytes.now ≡ (128 + low) ∷ more → ⊥) }
{
    match split_byte(bytes) {
        Some((byte, rest)) => {
            if byte < 128 || 192 <= byte {
                return None;
            }
            Some(((byte - 128) as u16, rest))
        }
        None => None,
    }
}

/// The unit below 2048 that two bytes spell, of which the first is given, and the bytes after them.
fn two_bytes(first: u8, rest: &[u8]) -> Option<(u16, &[u8])>
    requires low { 192 ≤ first }
    requires high { first < 224 }
    ensures some { IfSome result (λ x. Begins x.0 x.1.now (first ∷ rest.now)) }
    ensures none { IfNone result (BeginsNone (first ∷ rest.now)) }
{
    match next_six(rest) {
        Some((low, more)) => {
            let value = (first - 192) as u16 * 64 + low;
            if is_one_byte(value) {
                return None;
            }
            Some((value, more))
        }
        None => None,
    }
}

/// The unit from 2048 on that three bytes spell, of which the first is given, and the bytes after them.
fn three_bytes(first: u8, rest: &[u8]) -> Option<(u16, &[u8])>
    requires low { 224 ≤ first }
    requires high { first < 240 }
    ensures some { IfSome result (λ x. Begins x.0 x.1.now (first ∷ rest.now)) }
    ensures none { IfNone result (BeginsNone (first ∷ rest.now)) }
{
    match next_six(rest) {
        Some((middle, rest)) => match next_six(rest) {
            Some((low, more)) => {
                let unit = (first - 224) as u16 * 4096 + middle * 64 + low;
                if unit < 2048 {
                    return None;
                }
                Some((unit, more))
            }
            None => None,
        },
        None => None,
    }
}

/// The unit whose spelling stands at the front, and the bytes after it.
fn first_unit(bytes: &[u8]) -> Option<(u16, &[u8])>
    ensures some { IfSome result (λ x. Begins x.0 x.1.now bytes.now) }
    ensures fits { IfSome result (λ x. x.0 < 2 ^ 16) }
    ensures none { IfNone result (BeginsNone bytes.now) }
{
    match split_byte(bytes) {
        Some((first, rest)) => {
            if first < 192 {
                if !is_one_byte(u16::from(first)) {
                    return None;
                }
                return Some((u16::from(first), rest));
            }
            if first < 224 {
                return two_bytes(first, rest);
            }
            if first < 240 {
                return three_bytes(first, rest);
            }
            None
        }
        None => None,
    }
}

/// The text that these bytes are the modified UTF-8 of (JVM Specification 4.4.7), or the first place where they
/// go wrong.
pub fn decode_mutf8(alloc: Global, bytes: &[u8]) -> Result<Name, Utf8Fault>
    requires { length bytes.now < 2 ^ 32 }
    // What is decoded is spelled so.
    ensures found { IfOk result (λ name. AreUnits name × (bytes.now ≡ spelled_all name)) }
    // What is spelled so is decoded, unless memory runs out.
    ensures only { (units : Units ℕ) → AreUnits units → bytes.now ≡ spelled_all units → AnswersUnless Utf8Fault.OutOfMemory result (Ok units) }
    // Where the bytes go wrong.
    ensures bad { (place : ℕ) → result ≡ Err (Utf8Fault.Bad place) → IsBad bytes.now place }
    ensures bad_only { (place : ℕ) → IsBad bytes.now place → AnswersUnless Utf8Fault.OutOfMemory result (Err (Utf8Fault.Bad place)) }
{
    let mut units = Vec::new(alloc);
    let mut rest = bytes;
    while !rest.is_empty() {
        match first_unit(rest) {
            Some((unit, more)) => {
                units.push(unit)?;
                rest = more;
            }
            None => {
                return Err(Utf8Fault::Bad((bytes.len() - rest.len()) as u32));
            }
        }
    }
    Ok(Name::from_vec(units))
}

/// Adds the bytes of one unit at the end.
#[tactic(auto, unfolding(crate::specs::ModifiedUtf8::spelled))]
fn push_unit(bytes: &mut Vec<u8>, unit: u16) -> Result<(), AllocError>
    ensures { OnOk result (bytes.new.items ≡ bytes.old.items ++ spelled unit) }
{
    let low = 128 + (unit % 64) as u8;
    if is_one_byte(unit) {
        bytes.push(unit as u8)?;
    } else if unit < 2048 {
        bytes.push(192 + (unit / 64) as u8)?;
        bytes.push(low)?;
    } else {
        bytes.push(224 + (unit / 4096) as u8)?;
        bytes.push(128 + (unit / 64 % 64) as u8)?;
        bytes.push(low)?;
    }
    Ok(())
}

/// The modified UTF-8 of a text (JVM Specification 4.4.7), which is never refused but for memory.
pub fn encode_mutf8(alloc: Global, name: &Name) -> Result<List<u8>, OutOfMemory>
    ensures { IfOk result (λ bytes. bytes ≡ spelled_all name.now) }
{
    let mut bytes = Vec::new(alloc);
    for unit in name.units() {
        push_unit(&mut bytes, *unit)?;
    }
    Ok(List::from_vec(bytes))
}
