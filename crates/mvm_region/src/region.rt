ghost use Rattle.std.specs.Prelude.{◌≡◌, ◌↔◌, ◌+◌, ◌<◌, ◌^◌, length, replicate, slice_get, slice_set, IfOk, IfSome, IfNone, OnSome, None, Some};
ghost use Rattle.mvm_region.specs.Words.{left, Words};

use mvm_base::OutOfMemory;
use std::alloc::Global;
use std::marker::Model;

/// So many words, from a place on.
#[derive(Clone, Copy, Debug, PartialEq, Eq)]
pub struct Span {
    /// The place of the first word.
    pub start: u32,
    /// How many words there are.
    pub len: u32,
}

/// Words of 64 bits, of which the first so many are carved.
#[derive(Debug, Drop)]
pub struct Region {
    words: Vec<u64>,
    carved: u32,
}

impl Model for Region {
    ghost use Rattle.std.specs.Prelude.{◌<◌, ◌≤◌, ◌^◌, length};
    ghost use Rattle.mvm_region.specs.Words.{Words};

    ghost Value = { Words };

    ghost view = { λ r. record { words = r.words.items; carved = r.carved } };

    ghost invariant = { λ r. (r.carved ≤ length r.words.items) × (length r.words.items < 2 ^ 32) };
}

impl Region {
    /// Carves the next so many words, or answers `None` where fewer are left. It takes no memory.
    pub fn carve(&mut self, count: u32) -> Option<Span>
        ensures missing { (result ≡ None) ↔ (left self.old < count) }
        ensures refused { IfNone result (self.new ≡ self.old) }
        ensures span { IfSome result (λ span. span ≡ record { start = self.old.carved; len = count }) }
        ensures carved { OnSome result (self.new ≡ record self.old { carved = self.old.carved + count }) }
    {
        if count > self.left() {
            return None;
        }
        let start = self.carved;
        self.carved = start + count;
        Some(Span { start, len: count })
    }

    /// How many words are not carved yet.
    pub fn left(&self) -> u32
        ensures left { result ≡ left self.now }
        ensures all { result + self.now.carved ≡ length self.now.words }
    {
        self.words.len() as u32 - self.carved
    }

    /// How many words there are, carved or not.
    pub fn size(&self) -> u32
        ensures { result ≡ length self.now.words }
    {
        self.words.len() as u32
    }

    /// The word at a place below the length.
    pub fn word(&self, at: u32) -> u64
        requires { at < length self.now.words }
        ensures { slice_get self.now.words at ≡ Some result }
    {
        self.words[at as usize]
    }

    /// Puts a word in a place below the length.
    pub fn set_word(&mut self, at: u32, value: u64)
        requires { at < length self.old.words }
        ensures { self.new ≡ record self.old { words = slice_set self.old.words at value } }
    {
        self.words[at as usize] = value;
    }
}

/// So many zeros, none of them carved.
pub(crate) fn zeros(alloc: Global, words: u32) -> Result<Region, OutOfMemory>
    ensures { IfOk result (λ r. r ≡ record { words = replicate words 0; carved = 0 }) }
{
    Ok(Region {
        words: vec![in alloc; 0; words as usize]?,
        carved: 0,
    })
}

/// Makes all words zero, and none of them carved.
pub(crate) fn clear(region: &mut Region)
    ensures { region.new ≡ record { words = replicate (length region.old.words) 0; carved = 0 } }
{
    region.words.fill(0);
    region.carved = 0;
}
