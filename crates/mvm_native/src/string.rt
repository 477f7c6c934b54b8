ghost use Rattle.std.specs.Prelude.{◌≡◌, ◌↔◌, ◌<◌, ◌≤◌, ◌-◌, ◌^◌, length, take, drop, IfOk, IsTrue};
ghost use Rattle.mvm_heap.specs.Heap.{object_at, placed, text};
ghost use Rattle.mvm_native.specs.Machine.{machine_of, made, Called};
ghost use Rattle.mvm_native.specs.Strings.{char_at, has_units, hash_code, hashed, hashed_more, is_text, place_in, span_in, string_equals, string_length, substring, value_of};
ghost use Rattle.mvm_native.specs.Texts.{text_of, units_at, HasText, IsObjectOrNull, IsText};

use crate::env::Env;
use crate::out::{Out, Thrown, gives, truth};
use crate::texts::{ValueKind, text_of};
use mvm_base::{OutOfMemory, Word};
use mvm_heap::{AllocFault, Heap, ObjectKind};
use std::alloc::{AllocError, Global};

/// `String.length`.
#[tactic(auto, unfolding(crate::specs::Strings::string_length))]
pub fn string_length(env: &Env, string: u32) -> Out
    requires { IsText env.now.heap.state.objects string }
    ensures { result ≡ string_length string (machine_of env.now) }
{
    let length = env.heap.length(string);
    gives(Word::Int(length as i32))
}

/// A place of a list of this length.
fn place_in(index: i32, length: u32) -> Option<u32>
    ensures { result ≡ place_in index length }
{
    if index < 0 {
        return None;
    }
    let place = index.cast_unsigned();
    if place < length { Some(place) } else { None }
}

/// `String.charAt`.
#[tactic(auto, unfolding(crate::specs::Strings::char_at))]
pub fn char_at(env: &Env, string: u32, index: i32) -> Out
    requires { IsText env.now.heap.state.objects string }
    ensures { result ≡ char_at string index (machine_of env.now) }
{
    match place_in(index, env.heap.length(string)) {
        Some(place) => gives(Word::Int(i32::from(env.heap.unit(string, place)))),
        None => Out::Throw(Thrown::StringIndexOutOfBoundsException),
    }
}

/// Where a part of a list of this length begins and ends.
fn span_in(from: i32, to: i32, length: u32) -> Option<(u32, u32)>
    ensures { result ≡ span_in from to length }
{
    if from < 0 || to < 0 {
        return None;
    }
    let start = from.cast_unsigned();
    let end = to.cast_unsigned();
    if start <= end && end <= length {
        Some((start, end))
    } else {
        None
    }
}

/// The units of a text from one place to another.
fn units_of(
    alloc: Global,
    heap: &Heap,
    string: u32,
    start: u32,
    end: u32,
) -> Result<Vec<u16>, AllocError>
    requires text { IsText heap.now.state.objects string }
    requires span { start ≤ end }
    requires within { end ≤ length (units_at heap.now.state.objects string) }
    ensures { IfOk result (λ units. units.items ≡ take (end - start) (drop start (units_at heap.now.state.objects string))) }
{
    let mut units = Vec::new(alloc);
    for place in start..end {
        units.push(heap.unit(string, place))?;
    }
    Ok(units)
}

/// All units of a text.
pub fn whole_text(alloc: Global, heap: &Heap, string: u32) -> Result<Vec<u16>, AllocError>
    requires { IsText heap.now.state.objects string }
    ensures units { IfOk result (λ units. units.items ≡ units_at heap.now.state.objects string) }
    ensures few { IfOk result (λ units. length units.items < 2 ^ 30) }
{
    units_of(alloc, heap, string, 0, heap.length(string))
}

/// A new text of these units.
pub fn new_text(env: &mut Env, units: &[u16]) -> Result<Out, OutOfMemory>
    requires { length units.now < 2 ^ 32 }
    ensures { Called result (made (placed (text units.now) env.old.heap.state) (machine_of env.old)) (machine_of env.old) (machine_of env.new) }
{
    match env.heap.alloc_text(units) {
        Ok(string) => Ok(gives(Word::Ref(string))),
        Err(AllocFault::Full) => Ok(Out::Throw(Thrown::OutOfMemoryError)),
        Err(AllocFault::OutOfMemory) => Err(OutOfMemory),
    }
}

/// `String.substring`, which is always a new text.
#[tactic(auto, unfolding(crate::specs::Strings::substring))]
pub fn substring(env: &mut Env, string: u32, from: i32, to: i32) -> Result<Out, OutOfMemory>
    requires { IsText env.old.heap.state.objects string }
    ensures { Called result (substring string from to (machine_of env.old)) (machine_of env.old) (machine_of env.new) }
{
    match span_in(from, to, env.heap.length(string)) {
        Some((start, end)) => {
            let units = units_of(env.alloc, &env.heap, string, start, end)?;
            new_text(env, &units)
        }
        None => Ok(Out::Throw(Thrown::StringIndexOutOfBoundsException)),
    }
}

/// Whether two texts have the same units.
fn same_units(heap: &Heap, string: u32, other: u32) -> bool
    requires string { string < length heap.now.state.objects }
    requires other { other < length heap.now.state.objects }
    ensures { IsTrue result ↔ (units_at heap.now.state.objects string ≡ units_at heap.now.state.objects other) }
{
    let length = heap.length(string);
    if heap.length(other) != length {
        return false;
    }
    for place in 0..length {
        if heap.number(string, place) != heap.number(other, place) {
            return false;
        }
    }
    true
}

/// Whether it is a text.
pub fn is_text(heap: &Heap, object: u32) -> bool
    requires { object < length heap.now.state.objects }
    ensures { result ≡ is_text (object_at heap.now.state.objects object).sort }
{
    match heap.kind_of(object) {
        ObjectKind::Text => true,
        ObjectKind::Object => false,
        ObjectKind::Array(_) => false,
    }
}

/// Whether a word is a text of the same units.
fn has_units(heap: &Heap, string: u32, other: Word) -> bool
    requires string { IsText heap.now.state.objects string }
    requires other { IsObjectOrNull heap.now.state.objects other }
    ensures { result ≡ has_units heap.now.state.objects (units_at heap.now.state.objects string) other }
{
    match other {
        Word::Ref(other) => {
            if !is_text(heap, other) {
                return false;
            }
            same_units(heap, string, other)
        }
        Word::Null | Word::Int(_) | Word::Long(_) => false,
    }
}

/// `String.equals`: whether the other is a text of the same units.
#[tactic(auto, unfolding(crate::specs::Strings::string_equals))]
pub fn string_equals(env: &Env, string: u32, other: Word) -> Out
    requires string { IsText env.now.heap.state.objects string }
    requires other { IsObjectOrNull env.now.heap.state.objects other }
    ensures { result ≡ string_equals string other (machine_of env.now) }
{
    truth(has_units(&env.heap, string, other))
}

/// One step of the hash.
fn hashed_more(hash: i32, unit: u16) -> i32
    ensures { result ≡ hashed_more hash unit }
{
    31i32.wrapping_mul(hash).wrapping_add(i32::from(unit))
}

fn hashed(heap: &Heap, string: u32) -> i32
    requires { IsText heap.now.state.objects string }
    ensures { result ≡ hashed (units_at heap.now.state.objects string) }
{
    let mut hash = 0i32;
    for place in 0..heap.length(string) {
        hash = hashed_more(hash, heap.unit(string, place));
    }
    hash
}

/// `String.hashCode`.
#[tactic(auto, unfolding(crate::specs::Strings::hash_code))]
pub fn hash_code(env: &Env, string: u32) -> Out
    requires { IsText env.now.heap.state.objects string }
    ensures { result ≡ hash_code string (machine_of env.now) }
{
    gives(Word::Int(hashed(&env.heap, string)))
}

/// `String.valueOf`: a new text.
#[tactic(auto, unfolding(crate::specs::Strings::value_of))]
pub fn value_of(env: &mut Env, kind: ValueKind, value: Word) -> Result<Out, OutOfMemory>
    requires { HasText env.old.heap.state.objects kind value }
    ensures { Called result (value_of (text_of env.old.heap.state.objects kind value) (machine_of env.old)) (machine_of env.old) (machine_of env.new) }
{
    let units = text_of(env.alloc, &env.heap, kind, value)?;
    new_text(env, &units)
}
