ghost use Rattle.std.specs.Prelude.{◌≡◌, ◌<◌, true, false, None, length, All, OnOk, OnErr};
ghost use Rattle.mvm_table.specs.Contents.{shelf_of, stands, Stay, PutsOn, off_name, off, all_off};
ghost use Rattle.mvm_table.specs.Loads.{IsLoaded};
ghost use Rattle.mvm_table.specs.NameMap.{row};

use crate::name_map::NameMap;
use crate::table::Table;
use mvm_base::{List, Name, OutOfMemory};
use mvm_set::{Class, Shared, own_name};
use std::alloc::Global;

/// Puts a class under a name on the shelf of a set.
fn put_on(
    alloc: Global,
    shelves: &mut Vec<NameMap<Shared<Class>>>,
    set: u32,
    name: &Name,
    class: Shared<Class>,
) -> Result<(), OutOfMemory>
    requires { set < length shelves.old.items }
    ensures count { length shelves.new.items ≡ length shelves.old.items }
    ensures ok { OnOk result (PutsOn shelves.old.items set name.now class shelves.new.items) }
    // Taking a new name off again gives what was there.
    ensures back { OnOk result (row name.now (shelf_of set shelves.old.items) ≡ None → off_name (Some name.now) set shelves.new.items ≡ shelves.old.items) }
    ensures err { OnErr result (shelves.new.items ≡ shelves.old.items) }
{
    shelves[set as usize].put(alloc, name, class)
}

/// Takes the class of a name off the shelf of a set.
fn take_name_off(shelves: &mut Vec<NameMap<Shared<Class>>>, set: u32, name: &Name)
    ensures { shelves.new.items ≡ off_name (Some name.now) set shelves.old.items }
{
    if (set as usize) < shelves.len() {
        shelves[set as usize].take_out(name);
    }
}

/// Takes a class off the shelf of its set.
fn take_off(shelves: &mut Vec<NameMap<Shared<Class>>>, class: &Class)
    ensures { shelves.new.items ≡ off class.now shelves.old.items }
{
    if let Some(name) = own_name(class.file()) {
        take_name_off(shelves, class.set(), name);
    }
}

/// Takes these classes off the shelves of their sets, the last of them first.
fn take_all_off(shelves: &mut Vec<NameMap<Shared<Class>>>, mut classes: Vec<Shared<Class>>)
    ensures { shelves.new.items ≡ all_off classes.items shelves.old.items }
{
    while let Some(class) = classes.pop() {
        take_off(shelves, class.get());
    }
}

impl Table {
    /// Puts a class on the shelf of its set.
    pub(crate) fn shelve_one(&mut self, class: &Shared<Class>) -> Result<(), OutOfMemory>
        requires { IsLoaded self.old.files class.now }
        ensures files { self.new.files ≡ self.old.files }
        ensures stay { Stay self.old self.new }
        ensures shelved { OnOk result (stands self.new class.now ≡ true) }
        // Taking off again what did not stand there gives what was there.
        ensures back { OnOk result (stands self.old class.now ≡ false → off class.now self.new.shelves ≡ self.old.shelves) }
        ensures err { OnErr result (self.new ≡ self.old) }
    {
        match own_name(class.get().file()) {
            Some(name) => put_on(
                self.alloc,
                &mut self.shelves,
                class.get().set(),
                name,
                class.share()?,
            ),
            None => Err(OutOfMemory),
        }
    }

    /// Puts a class on the shelf of its set, unless it stands there, and behind those that were put there.
    fn shelve_new(
        &mut self,
        class: &Shared<Class>,
        put: &mut Vec<Shared<Class>>,
    ) -> Result<(), OutOfMemory>
        requires { IsLoaded self.old.files class.now }
        ensures files { self.new.files ≡ self.old.files }
        ensures stay { Stay self.old self.new }
        ensures shelved { OnOk result (stands self.new class.now ≡ true) }
        ensures back { all_off put.new.items self.new.shelves ≡ all_off put.old.items self.old.shelves }
    {
        if self.shelved(class) {
            return Ok(());
        }
        put.push(class.share()?)?;
        self.shelve_one(class)
    }

    /// Puts classes on the shelves of their sets, and those that are new there behind those that were put.
    fn shelve_all(
        &mut self,
        fresh: &[Shared<Class>],
        put: &mut Vec<Shared<Class>>,
    ) -> Result<(), OutOfMemory>
        requires { All (λ class. IsLoaded self.old.files class) fresh.now }
        ensures files { self.new.files ≡ self.old.files }
        ensures stay { Stay self.old self.new }
        ensures shelved { OnOk result (All (λ class. stands self.new class ≡ true) fresh.now) }
        ensures back { all_off put.new.items self.new.shelves ≡ all_off put.old.items self.old.shelves }
    {
        for i in 0..fresh.len() {
            self.shelve_new(&fresh[i], put)?;
        }
        Ok(())
    }

    /// Puts classes on the shelves of their sets, for all that ask for them later: all of them, or none.
    ///
    /// # Errors
    ///
    /// `OutOfMemory`; the shelves are then as before.
    pub fn shelve(&mut self, fresh: &List<Shared<Class>>) -> Result<(), OutOfMemory>
        requires { All (λ class. IsLoaded self.old.files class) fresh.now }
        ensures files { self.new.files ≡ self.old.files }
        // What stood there stays.
        ensures stay { Stay self.old self.new }
        ensures shelved { OnOk result (All (λ class. stands self.new class ≡ true) fresh.now) }
        ensures refused { OnErr result (self.new ≡ self.old) }
    {
        let mut put = Vec::new(self.alloc);
        match self.shelve_all(fresh.as_slice(), &mut put) {
            Ok(()) => Ok(()),
            Err(refused) => {
                take_all_off(&mut self.shelves, put);
                Err(refused)
            }
        }
    }

    /// Whether a class stands on the shelf of its set.
    pub fn shelved(&self, class: &Shared<Class>) -> bool
        ensures { result ≡ stands self.now class.now }
    {
        match own_name(class.get().file()) {
            Some(name) => self.on_shelf(class.get().set(), name).is_some(),
            None => false,
        }
    }
}
