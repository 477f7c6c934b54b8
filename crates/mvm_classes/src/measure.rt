ghost use Rattle.std.specs.Prelude.{◌≡◌, ◌<◌, length};

use crate::entries::indices_of;
use crate::files::name_of;
use crate::refusal::Refusal;
use mvm_base::{List, Name, Steps};
use mvm_table::{LoadFault, Table};
use std::alloc::Global;
use std::sync::ledger::Ledger;

/// Puts the class of a name on the shelf, where it loads. It answers whether it does.
fn shelve_class<L: Ledger>(
    alloc: Global,
    table: &mut Table,
    name: &Name,
    steps: &mut Steps<L>,
) -> Result<bool, Refusal>
    requires { 0 < length table.old.files }
    ensures { table.new.files ≡ table.old.files }
{
    let class = match table.class(0, name, steps) {
        Ok(class) => class,
        Err(LoadFault::OutOfMemory) => return Err(Refusal::OutOfMemory),
        Err(_) => return Ok(false),
    };
    let mut fresh = List::new(alloc);
    fresh.push(class)?;
    table.shelve(&fresh)?;
    Ok(true)
}

/// Asks for the class of a name, and for what each entry of its constant pool stands for. It answers whether there was no fault.
fn ask<L: Ledger>(table: &Table, name: &Name, steps: &mut Steps<L>) -> Result<bool, Refusal>
    requires { 0 < length table.now.files }
{
    let class = match table.class(0, name, steps) {
        Ok(class) => class,
        Err(LoadFault::OutOfMemory) => return Err(Refusal::OutOfMemory),
        Err(_) => return Ok(false),
    };
    let mut faultless = true;
    for index in 1..indices_of(class.get().file()) {
        match table.resolve(&class, index, steps) {
            Ok(_) => {}
            Err(LoadFault::OutOfMemory) => return Err(Refusal::OutOfMemory),
            Err(_) => faultless = false,
        }
    }
    Ok(faultless)
}

/// Puts the classes of these words on the shelf, and then asks so many times for the first and for what each entry of its constant pool
/// stands for. It answers whether there was no fault.
pub(crate) fn ask_times<L: Ledger>(
    alloc: Global,
    table: &mut Table,
    words: &[String],
    times: u32,
    steps: &mut Steps<L>,
) -> Result<bool, Refusal>
    requires { 0 < length table.old.files }
{
    let mut faultless = true;
    for word in words {
        let name = name_of(alloc, word.as_str())?;
        if !shelve_class(alloc, table, &name, steps)? {
            faultless = false;
        }
    }
    let Some(first) = words.first() else {
        return Ok(faultless);
    };
    let name = name_of(alloc, first.as_str())?;
    for _ in 0..times {
        if !ask(table, &name, steps)? {
            faultless = false;
        }
    }
    Ok(faultless)
}
