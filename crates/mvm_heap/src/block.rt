//! One object in the words of a region: its header and its contents.

ghost use Rattle.std.specs.Prelude.{◌≡◌, ℕ, ◌+◌, ◌/◌, ◌<◌, ◌≤◌, ◌≢◌, ◌^◌, length, IfSome, IfNone, OnSome};
ghost use Rattle.mvm_heap.specs.Packed.{word_at, length_in, sort_in, number_in, words_in, object_in, monitor_in, in_word, with_number};
ghost use Rattle.mvm_heap.specs.Heap.{free, zeros};
ghost use Rattle.mvm_heap.specs.Sorts.{words_needed};

use crate::header::{bits, first_word, in_word, second_word, sort_number, word};
use crate::kind::ObjectKind;
use crate::packing::{item_at, replaced};
use crate::values::{kept, words_needed};
use mvm_region::{Monitor, Region, Span};

/// The number at a place of the object of this sort that begins there.
#[tactic(auto, unfolding(crate::specs::Packed::number_in))]
pub fn number_at(region: &Region, at: u32, sort: ObjectKind, place: u32) -> u64
    requires { at + 2 + place / in_word sort < length region.now.words }
    ensures { result ≡ number_in region.now.words at sort place }
{
    let _words = region.size();
    let count = in_word(sort);
    let word = word(region, at + 2 + place / count);
    item_at(bits(sort), place % count, count, word)
}

/// Puts a number in a place of the object of this sort that begins there, which keeps the low bits.
#[tactic(auto, unfolding(crate::specs::Packed::with_number))]
pub fn put_number(region: &mut Region, at: u32, sort: ObjectKind, place: u32, value: u64)
    requires { at + 2 + place / in_word sort < length region.old.words }
    ensures { region.new ≡ record region.old { words = with_number region.old.words at sort place value } }
{
    let _words = region.size();
    let count = in_word(sort);
    let index = at + 2 + place / count;
    let word = word(region, index);
    let value = kept(sort, value);
    region.set_word(
        index,
        replaced(bits(sort), place % count, count, value, word),
    );
}

/// Makes words zero, from one place to another.
fn clear(region: &mut Region, from: u32, to: u32)
    requires { to ≤ length region.old.words }
    ensures carved { region.new.carved ≡ region.old.carved }
    ensures length { length region.new.words ≡ length region.old.words }
    ensures before { (k : ℕ) → k < from → word_at region.new.words k ≡ word_at region.old.words k }
    ensures zero { (k : ℕ) → from ≤ k → k < to → word_at region.new.words k ≡ 0 }
{
    for at in from..to {
        region.set_word(at, 0);
    }
}

/// Writes an object whose words these are, all its places 0.
fn write_new(region: &mut Region, at: u32, end: u32, sort: ObjectKind, class: u32, len: u32)
    requires end { end ≡ at + words_needed sort len }
    requires within { end ≤ length region.old.words }
    ensures carved { region.new.carved ≡ region.old.carved }
    ensures length { length region.new.words ≡ length region.old.words }
    ensures before { (k : ℕ) → k < at → word_at region.new.words k ≡ word_at region.old.words k }
    ensures object { object_in region.new.words at ≡ zeros sort class len }
    ensures monitor { monitor_in region.new.words at ≡ free }
{
    let _words = words_needed(sort, len);
    let free = Monitor {
        owner: None,
        count: 0,
    };
    clear(region, at + 2, end);
    region.set_word(at, first_word(class, len));
    region.set_word(at + 1, second_word(sort_number(sort), free));
}

/// Carves the words of an object and writes it there, all its places 0, or answers `None` where words are missing.
pub fn place(region: &mut Region, sort: ObjectKind, class: u32, len: u32) -> Option<u32>
    ensures missing { IfNone result (length region.old.words < region.old.carved + words_needed sort len) }
    ensures refused { IfNone result (region.new ≡ region.old) }
    ensures start { IfSome result (λ at. at ≡ region.old.carved) }
    ensures carved { OnSome result (region.new.carved ≡ region.old.carved + words_needed sort len) }
    ensures within { OnSome result (region.new.carved ≤ length region.new.words) }
    ensures length { length region.new.words ≡ length region.old.words }
    ensures before { (k : ℕ) → k < region.old.carved → word_at region.new.words k ≡ word_at region.old.words k }
    ensures object { IfSome result (λ at. object_in region.new.words at ≡ zeros sort class len) }
    ensures monitor { IfSome result (λ at. monitor_in region.new.words at ≡ free) }
{
    let _size = region.size();
    let words = words_needed(sort, len);
    if words > u64::from(region.left()) {
        return None;
    }
    let Span { start, len: count } = region.carve(words as u32)?;
    write_new(region, start, start + count, sort, class, len);
    Some(start)
}

/// Puts a monitor in the header of the object that begins there.
pub fn put_monitor(region: &mut Region, at: u32, monitor: Monitor)
    requires there { at + 1 < length region.old.words }
    requires owner { IfSome monitor.owner (λ thread. thread < 64) }
    requires count { monitor.count ≤ 2 ^ 32 }
    ensures carved { region.new.carved ≡ region.old.carved }
    ensures length { length region.new.words ≡ length region.old.words }
    ensures others { (k : ℕ) → k ≢ at + 1 → word_at region.new.words k ≡ word_at region.old.words k }
    ensures sort { sort_in region.new.words at ≡ sort_in region.old.words at }
    ensures monitor { monitor_in region.new.words at ≡ monitor }
{
    let _words = region.size();
    let sort = word(region, at + 1) % 16;
    region.set_word(at + 1, second_word(sort, monitor));
}
