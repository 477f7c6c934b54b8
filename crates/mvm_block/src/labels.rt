//! The labels of a code, in the order of their lines, and each by its name.

ghost use Rattle.std.specs.Prelude.{◌≡◌, ◌∷◌, ◌++◌, [], None, OnOk, OnErr};
ghost use Rattle.mvm_listing.specs.Blocks.{labelled, place_of, place_in, is_known};

use mvm_base::{Name, OutOfMemory};
use mvm_statement::Place;
use std::alloc::Global;
use std::collections::BTreeMap;
use std::marker::Model;

/// Labels with their places. A look-up compares with as many names as the count of all has binary digits.
#[derive(Drop)]
pub(crate) struct Labels {
    given: Vec<(Name, u64)>,
    places: BTreeMap<Vec<u16>, u64>,
}

impl Model for Labels {
    ghost use Rattle.std.specs.Prelude.{List, ℕ};

    ghost Value = { List (List ℕ × ℕ) };

    ghost use Rattle.mvm_block.specs.Labels.{HasPlaces};

    ghost view = { λ l. l.given.items };

    ghost invariant = { λ l. HasPlaces l.given.items l.places };
}

impl Labels {
    /// No labels. It takes no memory.
    pub(crate) fn new(alloc: Global) -> Labels
        ensures { result ≡ [] }
    {
        Labels {
            given: Vec::new(alloc),
            places: BTreeMap::new(alloc),
        }
    }

    /// The place of a label.
    pub(crate) fn get(&self, name: &Name) -> Option<u64>
        ensures { result ≡ labelled self.now name.now }
    {
        self.places.get(name.units()).copied()
    }

    /// The place that a label or a number stands for, if any.
    pub(crate) fn place_of(&self, place: &Place) -> Option<i128>
        ensures { result ≡ place_of self.now place.now }
    {
        match place {
            Place::At(number) => Some(*number),
            Place::Label(name) => match self.get(name) {
                Some(at) => Some(i128::from(at)),
                None => None,
            },
        }
    }

    /// Whether a place is known.
    pub(crate) fn knows(&self, place: &Place) -> bool
        ensures { result ≡ is_known self.now place.now }
    {
        self.place_of(place).is_some()
    }

    /// The place that a label or a number stands for, or 0 where none is known.
    pub(crate) fn place_in(&self, place: &Place) -> i128
        ensures { result ≡ place_in self.now place.now }
    {
        self.place_of(place).unwrap_or(0)
    }

    /// Adds a label that was not given before.
    pub(crate) fn add(&mut self, alloc: Global, name: Name, at: u64) -> Result<(), OutOfMemory>
        requires { labelled self.old name ≡ None }
        ensures ok { OnOk result (self.new ≡ self.old ++ (name, at) ∷ []) }
        ensures err { OnErr result (self.new ≡ self.old) }
    {
        let key = Vec::from_slice(alloc, name.units())?;
        self.given.push((name, at))?;
        match self.places.insert(key, at) {
            Ok(_before) => Ok(()),
            Err(_refused) => {
                let _ = self.given.pop();
                Err(OutOfMemory)
            }
        }
    }
}
