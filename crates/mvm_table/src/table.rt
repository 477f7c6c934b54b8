ghost use Rattle.std.specs.Prelude.{◌≡◌, ◌<◌, ◌^◌, ℕ, length, slice_get, Ok, IfOk, IfSome};
ghost use Rattle.std.specs.Option.{option_copied};
ghost use Rattle.mvm_table.specs.BuiltIn.{HasBuiltins};
ghost use Rattle.mvm_table.specs.Contents.{AreShort, AreEmpty, shelf_of};
ghost use Rattle.mvm_table.specs.Files.{files_in, bytes_of, bytes_at, bytes_by_place, all_files};
ghost use Rattle.mvm_table.specs.Loads.{class_in};
ghost use Rattle.mvm_table.specs.NameMap.{row};

use crate::built_in::with_builtins;
use crate::name_map::NameMap;
use crate::source::SourceRow;
use crate::sources::Sources;
use mvm_base::{List, Name, OutOfMemory};
use mvm_set::{Class, ClassSet, Shared};
use std::alloc::Global;
use std::marker::{Brand, Model};
use std::sync::atomic::AtomicU64;
use std::sync::ledger::Blank;

/// The classes of the sets (JVM Specification 5.3): of each set the files, and the classes that stand on its shelf, so that nobody
/// has to load them again.
#[derive(Drop)]
pub struct Table {
    pub(crate) alloc: Global,
    pub(crate) sources: Sources,
    pub(crate) sets: List<ClassSet>,
    pub(crate) shelves: Vec<NameMap<Shared<Class>>>,
    pub(crate) decoded: AtomicU64,
}

impl Model for Table {
    ghost use Rattle.mvm_table.specs.Contents.{Contents, AreShort, AreShelved};
    ghost use Rattle.mvm_table.specs.Files.{all_files};
    ghost use Rattle.std.specs.Prelude.{◌≡◌, length};

    ghost Value = { Contents };

    ghost view = { λ t. record { files = all_files t.sources t.sets; shelves = t.shelves.items } };

    ghost invariant = { λ t. AreShort t.sources × AreShelved (all_files t.sources t.sets) t.shelves.items × (length t.shelves.items ≡ length t.sets) };
}

impl Table {
    /// The table of these sources and sets. The built-in classes stand on the shelf of each set. Of sources with equal bytes one is kept.
    ///
    /// # Errors
    ///
    /// `OutOfMemory` where memory runs out, and where there are more than 2^32 sets.
    pub fn new(
        alloc: Global,
        sources: List<SourceRow>,
        sets: List<ClassSet>,
    ) -> Result<Table, OutOfMemory>
        // A class file has fewer than 2^32 bytes.
        requires { AreShort sources }
        ensures files { IfOk result (λ table. table.files ≡ all_files sources sets) }
        // The built-in classes stand on all shelves.
        ensures builtins { IfOk result (λ table. (set : ℕ) → set < length table.files → HasBuiltins table set) }
    {
        let sources = Sources::new(alloc, sources)?;
        let shelves = empty_shelves(alloc, sets.len())?;
        let table = Table {
            alloc,
            sources,
            sets,
            shelves,
            decoded: AtomicU64::new(0),
        };
        with_builtins::<Brand>(table, Blank::new(1))
    }

    /// How many sets there are.
    pub(crate) fn set_count(&self) -> usize
        ensures { result ≡ length self.now.files }
    {
        self.sets.len()
    }

    /// The bytes of the file of a name in a set.
    pub(crate) fn bytes_of(&self, set: u32, name: &Name) -> Option<&[u8]>
        ensures value { option_copied result ≡ bytes_of name.now (files_in set self.now.files) }
        ensures short { IfSome result (λ bytes. length bytes.now < 2 ^ 32) }
    {
        bytes_in(&self.sources, &self.sets, set, name)
    }

    /// The class of a name that stands on the shelf of a set.
    pub(crate) fn on_shelf(&self, set: u32, name: &Name) -> Option<&Shared<Class>>
        ensures value { option_copied result ≡ row name.now (shelf_of set self.now.shelves) }
        ensures loaded { IfSome result (λ class. class_in self.now.files set name.now ≡ Ok class.now) }
    {
        on_shelves(self.shelves.as_slice(), set, name)
    }
}

/// The class of a name that stands on the shelf of a set, if there is such a set.
fn on_shelves<'a>(
    shelves: &'a [NameMap<Shared<Class>>],
    set: u32,
    name: &Name,
) -> Option<&'a Shared<Class>>
    ensures { option_copied result ≡ row name.now (shelf_of set shelves.now) }
{
    match shelves.get(set as usize) {
        Some(shelf) => shelf.get(name),
        None => None,
    }
}

/// So many shelves without classes.
fn empty_shelves(alloc: Global, count: usize) -> Result<Vec<NameMap<Shared<Class>>>, OutOfMemory>
    ensures empty { IfOk result (λ shelves. AreEmpty shelves.items) }
    ensures count { IfOk result (λ shelves. length shelves.items ≡ count) }
{
    let mut shelves = Vec::new(alloc);
    for _ in 0..count {
        shelves.push(NameMap::new(alloc))?;
    }
    Ok(shelves)
}

/// The bytes of a source.
#[tactic(auto, using(crate::proofs::Distinct::short_bytes))]
fn bytes_at(sources: &Sources, place: u32) -> &[u8]
    requires { AreShort sources.now }
    ensures value { result.now ≡ bytes_at sources.now place }
    ensures short { length result.now < 2 ^ 32 }
{
    sources.bytes(place)
}

/// The bytes of the class of a name, by the number of its source.
fn bytes_in<'a>(
    sources: &'a Sources,
    sets: &List<ClassSet>,
    set: u32,
    name: &Name,
) -> Option<&'a [u8]>
    requires { AreShort sources.now }
    ensures value { option_copied result ≡ bytes_by_place sources.now name.now (slice_get sets.now set) }
    ensures short { IfSome result (λ bytes. length bytes.now < 2 ^ 32) }
{
    match sets.get(set as usize) {
        Some(rows) => match rows.find(name) {
            Some(place) => Some(bytes_at(sources, place)),
            None => None,
        },
        None => None,
    }
}
