//! The two words before the contents of an object.

ghost use Rattle.std.specs.Prelude.{◌≡◌, ◌+◌, ◌*◌, ◌/◌, ◌%◌, ◌<◌, ◌≤◌, ◌^◌, length, IfSome};
ghost use Rattle.mvm_heap.specs.Packed.{word_at, class_in, length_in, sort_in, monitor_in, sort_number, sort_numbered, owner_number, owner_numbered, bits, in_word};

use crate::kind::{ItemKind, ObjectKind};
use mvm_region::{Monitor, Region};

/// The word at a place.
pub fn word(region: &Region, at: u32) -> u64
    requires { at < length region.now.words }
    ensures { result ≡ word_at region.now.words at }
{
    region.word(at)
}

/// The sort of a number.
#[tactic(auto, unfolding(crate::specs::Packed::sort_numbered))]
fn sort_numbered(number: u64) -> ObjectKind
    ensures { result ≡ sort_numbered number }
{
    match number {
        0 => ObjectKind::Object,
        1 => ObjectKind::Array(ItemKind::Boolean),
        2 => ObjectKind::Array(ItemKind::Byte),
        3 => ObjectKind::Array(ItemKind::Char),
        4 => ObjectKind::Array(ItemKind::Short),
        5 => ObjectKind::Array(ItemKind::Int),
        6 => ObjectKind::Array(ItemKind::Long),
        7 => ObjectKind::Array(ItemKind::Ref),
        _ => ObjectKind::Text,
    }
}

/// The number of a sort.
pub fn sort_number(sort: ObjectKind) -> u64
    ensures number { result ≡ sort_number sort }
    ensures small { result < 16 }
{
    match sort {
        ObjectKind::Object => 0,
        ObjectKind::Array(ItemKind::Boolean) => 1,
        ObjectKind::Array(ItemKind::Byte) => 2,
        ObjectKind::Array(ItemKind::Char) => 3,
        ObjectKind::Array(ItemKind::Short) => 4,
        ObjectKind::Array(ItemKind::Int) => 5,
        ObjectKind::Array(ItemKind::Long) => 6,
        ObjectKind::Array(ItemKind::Ref) => 7,
        ObjectKind::Text => 8,
    }
}

/// How many bits a place takes.
#[tactic(auto, unfolding(crate::specs::Packed::bits))]
pub fn bits(sort: ObjectKind) -> u32
    ensures { result ≡ bits sort }
{
    match sort {
        ObjectKind::Array(ItemKind::Boolean | ItemKind::Byte) => 8,
        ObjectKind::Array(ItemKind::Char | ItemKind::Short) | ObjectKind::Text => 16,
        ObjectKind::Array(ItemKind::Int | ItemKind::Ref) => 32,
        ObjectKind::Object | ObjectKind::Array(ItemKind::Long) => 64,
    }
}

/// How many places a word has.
#[tactic(auto, unfolding(crate::specs::Packed::in_word, crate::specs::Packed::bits))]
pub fn in_word(sort: ObjectKind) -> u32
    ensures count { result ≡ in_word sort }
    ensures some { 0 < result }
    ensures whole { result * bits sort ≡ 64 }
{
    match sort {
        ObjectKind::Array(ItemKind::Boolean | ItemKind::Byte) => 8,
        ObjectKind::Array(ItemKind::Char | ItemKind::Short) | ObjectKind::Text => 4,
        ObjectKind::Array(ItemKind::Int | ItemKind::Ref) => 2,
        ObjectKind::Object | ObjectKind::Array(ItemKind::Long) => 1,
    }
}

/// The class of the object that begins there.
pub fn class_at(region: &Region, at: u32) -> u32
    requires { at < length region.now.words }
    ensures { result ≡ class_in region.now.words at }
{
    (word(region, at) % 4_294_967_296) as u32
}

/// How many places the object has that begins there.
pub fn length_at(region: &Region, at: u32) -> u32
    requires { at < length region.now.words }
    ensures { result ≡ length_in region.now.words at }
{
    (word(region, at) / 4_294_967_296) as u32
}

/// The sort of the object that begins there.
pub fn sort_at(region: &Region, at: u32) -> ObjectKind
    requires { at + 1 < length region.now.words }
    ensures { result ≡ sort_in region.now.words at }
{
    let _words = region.size();
    sort_numbered(word(region, at + 1) % 16)
}

fn owner_numbered(number: u64) -> Option<u32>
    requires { number < 2 ^ 32 }
    ensures { result ≡ owner_numbered number }
{
    if number == 0 {
        return None;
    }
    Some((number - 1) as u32)
}

fn owner_number(owner: Option<u32>) -> u64
    ensures { result ≡ owner_number owner }
{
    match owner {
        Some(thread) => u64::from(thread) + 1,
        None => 0,
    }
}

/// The monitor of the object that begins there.
pub fn monitor_at(region: &Region, at: u32) -> Monitor
    requires { at + 1 < length region.now.words }
    ensures { result ≡ monitor_in region.now.words at }
{
    let _words = region.size();
    let header = word(region, at + 1);
    Monitor {
        owner: owner_numbered(header / 16 % 128),
        count: header / 2048,
    }
}

/// The second word of an object of this sort with this monitor.
pub fn second_word(sort: u64, monitor: Monitor) -> u64
    requires sort { sort < 16 }
    requires owner { IfSome monitor.owner (λ thread. thread < 64) }
    requires count { monitor.count ≤ 2 ^ 32 }
    ensures sort { result % 16 ≡ sort }
    ensures owner { owner_numbered (result / 16 % 128) ≡ monitor.owner }
    ensures count { result / 2048 ≡ monitor.count }
{
    let owner = owner_number(monitor.owner);
    sort + 16 * (owner + 128 * monitor.count)
}

/// The first word of an object of this class with so many places.
pub fn first_word(class: u32, len: u32) -> u64
    ensures class { result % 2 ^ 32 ≡ class }
    ensures len { result / 2 ^ 32 ≡ len }
{
    u64::from(class) + u64::from(len) * 4_294_967_296
}
