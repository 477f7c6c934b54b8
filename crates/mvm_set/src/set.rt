ghost use Rattle.std.specs.Prelude.{◌≡◌, ℕ, List as Items, IfOk};
ghost use Rattle.mvm_set.specs.Set.{source_of, look};

use mvm_base::{List, Name, OutOfMemory};
use std::alloc::Global;
use std::collections::BTreeMap;
use std::marker::Model;

/// A class of a set: its name, and the number of the source of its bytes.
#[derive(Debug, Drop)]
pub struct SetRow {
    /// The name of the class (JVM Specification 4.2.1).
    pub name: Name,
    /// The number of its source, from 0.
    pub source: u32,
}

/// The classes of a set, by name.
#[derive(Debug, Drop)]
pub struct ClassSet {
    rows: List<SetRow>,
    sources: BTreeMap<Vec<u16>, u32>,
}

impl Model for ClassSet {
    ghost use Rattle.std.specs.Prelude.{◌≡◌, ℕ, List as Items};
    ghost use Rattle.mvm_set.specs.declared.set.SetRow.{SetRow as RowOf};
    ghost use Rattle.mvm_set.specs.Set.{source_of, look};

    ghost Value = { Items RowOf };

    ghost view = { λ s. s.rows };

    ghost invariant = { λ s. (name : Items ℕ) → look s.sources (λ key. key.items) name ≡ source_of name s.rows };
}

/// The sources by name, each the one of the first row of that name.
fn sources_of(alloc: Global, rows: &[SetRow]) -> Result<BTreeMap<Vec<u16>, u32>, OutOfMemory>
    ensures { IfOk result (λ sources. (name : Items ℕ) → look sources (λ key. key.items) name ≡ source_of name rows.now) }
{
    let mut sources = BTreeMap::new(alloc);
    for i in (0..rows.len()).rev() {
        let row = &rows[i];
        let units = Vec::from_slice(alloc, row.name.units())?;
        sources.insert(units, row.source)?;
    }
    Ok(sources)
}

impl ClassSet {
    /// The set of these classes. Of several rows of one name the first counts.
    pub fn new(alloc: Global, rows: List<SetRow>) -> Result<ClassSet, OutOfMemory>
        ensures { IfOk result (λ set. set ≡ rows) }
    {
        let sources = sources_of(alloc, rows.as_slice())?;
        Ok(ClassSet { rows, sources })
    }

    /// The rows, in the order in which they were handed in.
    pub fn rows(&self) -> &[SetRow]
        ensures { result.now ≡ self.now }
    {
        self.rows.as_slice()
    }

    /// The number of the source of the class of this name, or `None` where the set has no such class.
    pub fn find(&self, name: &Name) -> Option<u32>
        ensures { result ≡ source_of name.now self.now }
    {
        match self.sources.get(name.units()) {
            Some(source) => Some(*source),
            None => None,
        }
    }
}
