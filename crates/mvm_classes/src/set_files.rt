ghost use Rattle.std.specs.Prelude.{◌≡◌, ◌<◌, ◌^◌, ◌++◌, ◌∷◌, [], length, IfOk, OnOk};

use crate::refusal::Refusal;
use mvm_base::{List, Name};
use mvm_set::{ClassSet, SetRow};
use mvm_table::{SourceRow, Table};
use std::alloc::Global;
use std::marker::Model;

/// The classes of a set: their names, with the bytes of their files.
#[derive(Drop)]
pub struct SetFiles {
    alloc: Global,
    sources: List<SourceRow>,
    rows: List<SetRow>,
}

impl Model for SetFiles {
    ghost use Rattle.std.specs.Prelude.{List as Items, All};
    ghost use Rattle.mvm_table.specs.Contents.{AreShort};
    ghost use Rattle.mvm_table.specs.Files.{File, files_of};
    ghost use Rattle.mvm_classes.specs.SetFiles.{IsPlace};

    ghost Value = { Items File };

    ghost view = { λ f. files_of f.sources f.rows };

    ghost invariant = { λ f. AreShort f.sources × All (IsPlace f.sources) f.rows };
}

impl SetFiles {
    /// No classes.
    pub fn new(alloc: Global) -> SetFiles
        ensures { result ≡ [] }
    {
        SetFiles {
            alloc,
            sources: List::new(alloc),
            rows: List::new(alloc),
        }
    }

    /// A class more.
    #[tactic(auto, using(crate::proofs::FileMore::files_before, crate::proofs::FileMore::files_more))]
    pub fn add(&mut self, name: Name, bytes: List<u8>) -> Result<(), Refusal>
        requires { length bytes < 2 ^ 32 }
        ensures { OnOk result (self.new ≡ self.old ++ record { name = name; bytes = bytes } ∷ []) }
    {
        let Ok(source) = u32::try_from(self.sources.len()) else {
            return Err(Refusal::OutOfMemory);
        };
        self.sources.push(SourceRow { bytes })?;
        self.rows.push(SetRow { name, source })?;
        Ok(())
    }

    /// The table that has these as its one set.
    pub fn table(self) -> Result<Table, Refusal>
        ensures { IfOk result (λ table. table.files ≡ self ∷ []) }
    {
        let SetFiles {
            alloc,
            sources,
            rows,
        } = self;
        let mut sets = List::new(alloc);
        sets.push(ClassSet::new(alloc, rows)?)?;
        Ok(Table::new(alloc, sources, sets)?)
    }
}
