ghost use Rattle.std.specs.Prelude.{◌≡◌, [], None, OnOk, OnErr};
ghost use Rattle.std.specs.Option.{option_copied};
ghost use Rattle.mvm_table.specs.NameMap.{row, without, Puts};

use mvm_base::{Name, OutOfMemory};
use std::alloc::Global;
use std::collections::BTreeMap;
use std::marker::Model;

/// Values by name. A look-up compares with as many names as the count of all has binary digits.
#[derive(Drop)]
pub(crate) struct NameMap<T> {
    rows: BTreeMap<Vec<u16>, T>,
}

impl<T> Model for NameMap<T> {
    ghost use Rattle.mvm_table.specs.NameMap.{Rows, rows_of};

    ghost Value = { Rows T };

    ghost view = { λ m. rows_of m.rows };
}

impl<T> NameMap<T> {
    /// No values.
    pub(crate) fn new(alloc: Global) -> NameMap<T>
        ensures { result ≡ [] }
    {
        NameMap {
            rows: BTreeMap::new(alloc),
        }
    }

    /// The value of a name.
    pub(crate) fn get(&self, name: &Name) -> Option<&T>
        ensures { option_copied result ≡ row name.now self.now }
    {
        self.rows.get(name.units())
    }
}

impl<T: Drop> NameMap<T> {
    /// Puts a value under a name, in the place of another that stands there.
    pub(crate) fn put(&mut self, alloc: Global, name: &Name, value: T) -> Result<(), OutOfMemory>
        ensures ok { OnOk result (Puts self.old name.now value self.new) }
        // Taking a new name out again gives what was there.
        ensures back { OnOk result (row name.now self.old ≡ None → without name.now self.new ≡ self.old) }
        ensures err { OnErr result (self.new ≡ self.old) }
    {
        let key = Vec::from_slice(alloc, name.units())?;
        self.rows.insert(key, value)?;
        Ok(())
    }

    /// Takes the value of a name out, if there is one.
    pub(crate) fn take_out(&mut self, name: &Name)
        ensures { self.new ≡ without name.now self.old }
    {
        self.rows.remove(name.units());
    }
}
