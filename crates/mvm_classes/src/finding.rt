ghost use Rattle.std.specs.Prelude.{◌<◌, length};
ghost use Rattle.mvm_classes.specs.Finding.{Finds, AllLoaded};

use mvm_base::{Name, Steps};
use mvm_set::{Class, Shared};
use mvm_table::{LoadFault, Table};
use std::sync::ledger::Ledger;

/// What is found of the class of a name.
#[derive(Drop)]
pub enum Finding {
    /// It is loaded, and links.
    Linked(Shared<Class>),
    /// It is loaded. This is the first fault of linking it.
    Unlinked(Shared<Class>, LoadFault),
    /// It is not loaded. This is the first fault.
    Unloaded(LoadFault),
    /// Memory was wanted and was not to be had. Nothing was found out of the name.
    OutOfMemory,
}

/// Loads the class of a name in the first set of a table, and links it (JVM Specification 5.3, 5.4.1).
pub fn find<L: Ledger>(table: &Table, name: &Name, steps: &mut Steps<L>) -> Finding
    requires { 0 < length table.now.files }
    ensures finds { Finds table.now.files name.now result }
    // The class is as the calls want it that are handed a class.
    ensures loaded { AllLoaded table.now.files result }
{
    let class = match table.class(0, name, steps) {
        Ok(class) => class,
        Err(LoadFault::OutOfMemory) => return Finding::OutOfMemory,
        Err(fault) => return Finding::Unloaded(fault),
    };
    match table.linked(&class, steps) {
        Ok(()) => Finding::Linked(class),
        Err(LoadFault::OutOfMemory) => Finding::OutOfMemory,
        Err(fault) => Finding::Unlinked(class, fault),
    }
}
