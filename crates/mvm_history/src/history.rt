ghost use Rattle.std.specs.Prelude.{◌≡◌, ◌<◌, ◌↔◌, [], ◌∷◌, ◌++◌, length, slice_get, IsTrue, OnOk, OnErr, OnSome};
ghost use Rattle.std.specs.Option.{option_copied};
ghost use Rattle.mvm_history.specs.Stamps.{last_stamp};

use crate::entry::Entry;
use mvm_base::OutOfMemory;
use std::alloc::Global;
use std::marker::Model;

/// What happened to an isolate, from its start on: its entries in their order.
#[derive(Debug, Drop)]
pub struct History {
    entries: Vec<Entry>,
}

impl Model for History {
    ghost use Rattle.std.specs.Prelude.{List};
    ghost use Rattle.mvm_history.specs.declared.entry.Entry.{Entry};

    ghost Value = { List Entry };

    ghost view = { λ h. h.entries.items };
}

impl History {
    /// The history of an isolate that was not started. It takes no memory.
    pub fn new(alloc: Global) -> History
        ensures { result ≡ [] }
    {
        History {
            entries: Vec::new(alloc),
        }
    }

    /// The history of these entries, in their order.
    pub fn from_vec(entries: Vec<Entry>) -> History
        ensures { result ≡ entries.items }
    {
        History { entries }
    }

    /// The entries, in their order.
    pub fn entries(&self) -> &[Entry]
        ensures { result.now ≡ self.now }
    {
        self.entries.as_slice()
    }

    /// How many entries there are.
    pub fn len(&self) -> usize
        ensures { result ≡ length self.now }
    {
        self.entries.len()
    }

    /// Whether there are none: the isolate was not started.
    pub fn is_empty(&self) -> bool
        ensures { IsTrue result ↔ (self.now ≡ []) }
    {
        self.entries.is_empty()
    }

    /// The entry at a place, counted from 0, or `None` at and behind the end.
    pub fn get(&self, place: usize) -> Option<&Entry>
        ensures value { option_copied result ≡ slice_get self.now place }
        ensures within { OnSome result (place < length self.now) }
    {
        self.entries.get(place)
    }

    /// The stamp of the last entry, or 0 where there is none.
    pub fn last_stamp(&self) -> u64
        ensures { result ≡ last_stamp self.now }
    {
        match self.entries.last() {
            Some(entry) => entry.stamp,
            None => 0,
        }
    }

    /// Adds an entry at the end. Refused, the history is as before.
    pub fn push(&mut self, entry: Entry) -> Result<(), OutOfMemory>
        ensures ok { OnOk result (self.new ≡ self.old ++ entry ∷ []) }
        ensures err { OnErr result (self.new ≡ self.old) }
    {
        self.entries.push(entry)?;
        Ok(())
    }
}
