ghost use Rattle.std.specs.Prelude.{◌≡◌, ◌<◌, ◌≤◌, ◌++◌, [], ◌∷◌, length, map, replicate, IfOk, IfSome, IfNone, IsOk};
ghost use Rattle.std.specs.List.{remove, Contains, HoldsAt};
ghost use Rattle.mvm_region.specs.Words.{lengths_of, without, Kept};

use crate::region::{Region, clear, zeros};
use mvm_base::OutOfMemory;
use std::alloc::Global;
use std::marker::Model;

/// Makes regions, and keeps some of those that are given back.
#[derive(Debug, Drop)]
pub struct RegionPool {
    alloc: Global,
    most: u32,
    kept: Vec<Region>,
}

impl Model for RegionPool {
    ghost use Rattle.std.specs.Prelude.{◌≤◌, length, vec_capacity};
    ghost use Rattle.mvm_region.specs.Words.{lengths_of, Kept};

    ghost Value = { Kept };

    ghost view = { λ p. record { most = p.most; lengths = lengths_of p.kept.items } };

    ghost invariant = { λ p. p.most ≤ vec_capacity p.kept };
}

impl RegionPool {
    /// A pool that keeps at most so many regions; none yet.
    pub fn new(alloc: Global, most: u32) -> Result<RegionPool, OutOfMemory>
        ensures { IfOk result (λ pool. pool ≡ record { most = most; lengths = [] }) }
    {
        let kept = Vec::with_capacity(alloc, most as usize)?;
        Ok(RegionPool { alloc, most, kept })
    }

    /// A region of so many words, all zero and none of them carved. A region of that length that the pool keeps is
    /// handed out first, and then this takes no memory.
    pub fn take(&mut self, words: u32) -> Result<Region, OutOfMemory>
        ensures cleared { IfOk result (λ region. region ≡ record { words = replicate words 0; carved = 0 }) }
        ensures ready { Contains self.old.lengths words → IsOk result }
        ensures kept { self.new ≡ record self.old { lengths = without words self.old.lengths } }
    {
        match place_of(&self.kept, words) {
            Some(place) => {
                let mut region = self.kept.remove(place);
                clear(&mut region);
                Ok(region)
            }
            None => zeros(self.alloc, words),
        }
    }

    /// Takes a region back: it is kept where fewer than the most are kept, else dropped. It takes no memory.
    pub fn give(&mut self, region: Region)
        ensures kept { length self.old.lengths < self.old.most → self.new ≡ record self.old { lengths = self.old.lengths ++ length region.words ∷ [] } }
        ensures dropped { self.old.most ≤ length self.old.lengths → self.new ≡ self.old }
    {
        if self.kept.len() < self.most as usize {
            match self.kept.push(region) {
                Ok(()) => {}
                Err(_) => unreachable!(),
            }
        }
    }
}

/// The place of the first region of so many words.
fn place_of(kept: &[Region], words: u32) -> Option<usize>
    ensures found { IfSome result (λ place. (place < length kept.now) × (lengths_of (remove kept.now place) ≡ without words (lengths_of kept.now))) }
    ensures length { IfSome result (λ place. HoldsAt (λ region. length region.words ≡ words) kept.now place) }
    ensures none { IfNone result (Contains (lengths_of kept.now) words → ⊥) }
    ensures same { IfNone result (without words (lengths_of kept.now) ≡ lengths_of kept.now) }
{
    for place in 0..kept.len() {
        if kept[place].size() == words {
            return Some(place);
        }
    }
    None
}
