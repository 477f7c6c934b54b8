ghost use Rattle.std.specs.Prelude.{◌≡◌, ◌<◌, ℕ, length, true, Some, IfOk, OnOk};
ghost use Rattle.mvm_table.specs.BuiltIn.{name_at, HasNames, AreShelvedAs, HasBuiltins};
ghost use Rattle.mvm_table.specs.Contents.{Stay, is_shelved};

use crate::table::Table;
use mvm_base::{Name, OutOfMemory, Steps};
use mvm_builtin::{CLASSES, builtin_at, builtin_law};
use mvm_set::own_name;
use std::alloc::Global;
use std::sync::ledger::{Blank, Ledger};

/// The name of the built-in class at a place. Where there is none it is refused too, which no place below their count meets.
fn name_at(alloc: Global, place: usize) -> Result<Name, OutOfMemory>
    ensures { IfOk result (λ name. Some name ≡ name_at place) }
{
    match builtin_at(alloc, place)? {
        Some(file) => match own_name(&file) {
            Some(name) => Ok(name.copy()?),
            None => Err(OutOfMemory),
        },
        None => Err(OutOfMemory),
    }
}

/// The names of the built-in classes, each behind those of its supers.
fn builtin_names(alloc: Global) -> Result<Vec<Name>, OutOfMemory>
    ensures { IfOk result (λ names. HasNames names.items) }
{
    builtin_law();
    let mut names = Vec::new(alloc);
    for place in 0..CLASSES {
        let name = name_at(alloc, place)?;
        names.push(name)?;
    }
    Ok(names)
}

impl Table {
    /// Puts the class of a name on the shelf of a set.
    fn shelve_named<L: Ledger>(
        &mut self,
        set: u32,
        name: &Name,
        steps: &mut Steps<L>,
    ) -> Result<(), OutOfMemory>
        requires { set < length self.old.files }
        ensures files { self.new.files ≡ self.old.files }
        ensures stay { Stay self.old self.new }
        ensures shelved { OnOk result (is_shelved self.new set name.now ≡ true) }
    {
        match self.class(set, name, steps) {
            Ok(class) => self.shelve_one(&class),
            Err(_) => Err(OutOfMemory),
        }
    }

    /// Puts the classes of these names on the shelf of a set.
    fn shelve_names<L: Ledger>(
        &mut self,
        set: u32,
        names: &[Name],
        steps: &mut Steps<L>,
    ) -> Result<(), OutOfMemory>
        requires { set < length self.old.files }
        ensures files { self.new.files ≡ self.old.files }
        ensures stay { Stay self.old self.new }
        ensures shelved { OnOk result (AreShelvedAs self.new set names.now) }
    {
        for i in 0..names.len() {
            self.shelve_named(set, &names[i], steps)?;
        }
        Ok(())
    }
}

/// A table with the built-in classes on the shelves of all sets.
pub(crate) fn with_builtins<L: Ledger>(mut table: Table, blank: Blank) -> Result<Table, OutOfMemory>
    requires name { blank.name ≡ L.name }
    requires parts { blank.parts ≡ L.parts }
    requires share { 0 < L.parts }
    ensures files { IfOk result (λ new. new.files ≡ table.files) }
    ensures builtins { IfOk result (λ new. (set : ℕ) → set < length new.files → HasBuiltins new set) }
{
    let mut steps = Steps::<L>::new(blank);
    let names = builtin_names(table.alloc)?;
    for set in 0..table.set_count() {
        if set > 0xFFFF_FFFF {
            return Err(OutOfMemory);
        }
        table.shelve_names(set as u32, names.as_slice(), &mut steps)?;
    }
    Ok(table)
}
