//! What is kept of the entries of constant pools that were looked up.

ghost use Rattle.std.specs.Prelude.{◌≡◌, true, IfOk, IfSome};
ghost use Rattle.mvm_isolate.specs.Numbered.{Numbered};
ghost use Rattle.mvm_kept.specs.Kept.{AreKept, IsKept, Means};

use crate::entry::{Asked, Entry, Meaning};
use mvm_base::{List, OutOfMemory};
use std::alloc::Global;
use std::marker::Model;

/// How many rows there are at first, and at most: powers of 2.
const FEWEST: usize = 64;

const MOST: usize = 16384;

/// What was found of the entries of constant pools, each in a row that its class, its index and what is asked give.
#[derive(Drop)]
pub struct Kept {
    alloc: Global,
    rows: List<Option<Entry>>,
}

impl Model for Kept {
    ghost use Rattle.std.specs.Prelude.{List, Option};
    ghost use Rattle.mvm_kept.specs.declared.entry.Entry.{Entry as EntryOf};

    ghost Value = { List (Option EntryOf) };

    ghost view = { λ k. k.rows };
}

/// How far from the row of its index an entry stands, by what is asked.
fn distance(asked: Asked) -> u32 {
    match asked {
        Asked::Static => 0,
        Asked::Instance => 13,
        Asked::Objects => 26,
        Asked::Test => 39,
        Asked::Number => 52,
    }
}

/// The row of an entry among so many, of which the count is a power of 2.
fn row_of(home: u32, index: u16, asked: Asked, count: usize) -> usize {
    let mixed = home
        .wrapping_mul(1021)
        .wrapping_add(u32::from(index))
        .wrapping_add(distance(asked));
    mixed as usize & count.wrapping_sub(1)
}

/// So many rows with nothing in them.
fn empty_rows(alloc: Global, count: usize) -> Result<List<Option<Entry>>, OutOfMemory>
    ensures { IfOk result (λ rows. (n : Numbered) → AreKept n rows) }
{
    let mut rows = List::new(alloc);
    for _row in 0..count {
        rows.push(None)?;
    }
    Ok(rows)
}

/// Whether an entry is that of an index of the constant pool of a class, with what is asked.
fn is_of(entry: &Entry, home: u32, index: u16, asked: Asked) -> bool
    ensures class { result ≡ true → entry.now.home ≡ home }
    ensures index { result ≡ true → entry.now.index ≡ index }
{
    entry.home == home && entry.index == index && entry.meaning.asked() == asked
}

/// Whether a row has another entry.
fn is_taken(row: Option<&Option<Entry>>, home: u32, index: u16, asked: Asked) -> bool {
    match row {
        Some(Some(entry)) => !is_of(entry, home, index, asked),
        Some(None) => false,
        None => true,
    }
}

impl Kept {
    /// Nothing is kept.
    pub fn new(alloc: Global) -> Kept
        ensures { (n : Numbered) → AreKept n result }
    {
        Kept {
            alloc,
            rows: List::new(alloc),
        }
    }

    /// What the entry of an index of the constant pool of a class means, if what is asked of it is kept. It takes no memory.
    pub fn get(&self, home: u32, index: u16, asked: Asked) -> Option<&Meaning>
        ensures { (n : Numbered) → AreKept n self.now → IfSome result (λ meaning. Means n home index meaning.now) }
    {
        match self.rows.get(row_of(home, index, asked, self.rows.len())) {
            Some(Some(entry)) => {
                if is_of(entry, home, index, asked) {
                    Some(&entry.meaning)
                } else {
                    None
                }
            }
            _ => None,
        }
    }

    /// Twice as many rows, with nothing in them; where there are as many as may be, or memory is wanting, all is as it was.
    fn grow(&mut self)
        ensures { (n : Numbered) → AreKept n self.old → AreKept n self.new }
    {
        let count = self.rows.len();
        if count < MOST {
            let more = if count < FEWEST { FEWEST } else { count * 2 };
            if let Ok(rows) = empty_rows(self.alloc, more) {
                self.rows = rows;
            }
        }
    }

    /// Puts an entry in its row.
    fn put(&mut self, entry: Entry)
        ensures { (n : Numbered) → AreKept n self.old → IsKept n entry → AreKept n self.new }
    {
        let asked = entry.meaning.asked();
        let row = row_of(entry.home, entry.index, asked, self.rows.len());
        if row < self.rows.len() {
            self.rows.set(row, Some(entry));
        }
    }

    /// Keeps what an entry means. Where memory is wanting, nothing is kept.
    pub fn keep(&mut self, entry: Entry)
        ensures { (n : Numbered) → AreKept n self.old → IsKept n entry → AreKept n self.new }
    {
        let asked = entry.meaning.asked();
        let row = row_of(entry.home, entry.index, asked, self.rows.len());
        if is_taken(self.rows.get(row), entry.home, entry.index, asked) {
            self.grow();
        }
        self.put(entry);
    }
}
