ghost use Rattle.std.specs.Prelude.{◌≡◌, ◌+◌, ◌<◌, ◌^◌, length, true, Ok};
ghost use Rattle.mvm_table.specs.Loads.{IsLoaded};
ghost use Rattle.mvm_classes.specs.Finding.{Resolves, ResolvesAll};

use crate::refusal::Refusal;
use crate::shown::{ArrayName, ClassName, Entry, Shown, field_of, method_of};
use mvm_base::Steps;
use mvm_classfile::ClassFile;
use mvm_set::{Class, Shared};
use mvm_table::{LoadFault, Resolved, Table};
use std::io;
use std::sync::ledger::Ledger;

/// Tells what an entry of the constant pool of a class stands for. Of an entry that no instruction uses it tells nothing.
fn tell_resolved<R: Print>(
    rt: &R,
    class: &Class,
    index: u16,
    resolved: &Resolved,
) -> io::Result<()> {
    let name = ClassName(class.file());
    let pool = &class.file().parts().pool;
    let entry = Entry { pool, index };
    match resolved {
        Resolved::Class(found) => {
            let found = ClassName(found.get().file());
            println!(rt; "{name} #{index} class {found}")
        }
        Resolved::Array(shape) => println!(rt; "{name} #{index} class {}", ArrayName(shape)),
        Resolved::Field(at) => match field_of(at.class.get(), at.found) {
            Some(field) => println!(rt; "{name} #{index} {entry} is {field} at {}", at.slot),
            None => println!(rt; "{name} #{index} {entry} is nowhere"),
        },
        Resolved::Method(at) => match method_of(at.class.get(), at.found) {
            Some(method) => println!(rt; "{name} #{index} {entry} is {method}"),
            None => println!(rt; "{name} #{index} {entry} is nowhere"),
        },
        Resolved::Int(n) => println!(rt; "{name} #{index} int {n}"),
        Resolved::Long(n) => println!(rt; "{name} #{index} long {n}"),
        Resolved::Text(units) => println!(rt; "{name} #{index} text {}", Shown(units)),
        Resolved::Other => Ok(()),
    }
}

/// Tells why an entry of the constant pool of a class can't be resolved.
fn tell_fault<R: Print>(rt: &R, class: &Class, index: u16, fault: LoadFault) -> io::Result<()> {
    let name = ClassName(class.file());
    let pool = &class.file().parts().pool;
    println!(rt; "{name} #{index} {}: {fault:?}", Entry { pool, index })
}

/// Resolves an entry of the constant pool of a class, and tells of it. It answers whether no fault was told.
fn tell_entry<L: Ledger, R: Print>(
    rt: &R,
    table: &Table,
    class: &Shared<Class>,
    index: u16,
    steps: &mut Steps<L>,
) -> Result<bool, Refusal>
    requires { IsLoaded table.now.files class.now }
    ensures { result ≡ Ok true → Resolves table.now.files class.now index }
{
    match table.resolve(class, index, steps) {
        Ok(resolved) => {
            tell_resolved(rt, class.get(), index, &resolved)?;
            Ok(true)
        }
        Err(LoadFault::OutOfMemory) => Err(Refusal::OutOfMemory),
        Err(fault) => {
            tell_fault(rt, class.get(), index, fault)?;
            Ok(false)
        }
    }
}

/// The index behind the last of a constant pool (JVM Specification 4.1).
pub fn indices_of(file: &ClassFile) -> u16
    ensures { result ≡ length file.now.pool + 1 }
{
    let pool = &file.parts().pool;
    (pool.len() + 1) as u16
}

/// Resolves each entry of the constant pool of a class, in their order, and tells of it. It answers whether no fault was told.
#[tactic(auto, using(crate::proofs::EntryMore::entry_more))]
pub fn tell_entries<L: Ledger, R: Print>(
    rt: &R,
    table: &Table,
    class: &Shared<Class>,
    steps: &mut Steps<L>,
) -> Result<bool, Refusal>
    requires { IsLoaded table.now.files class.now }
    ensures { result ≡ Ok true → ResolvesAll table.now.files class.now }
{
    let mut faultless = true;
    for index in 1..indices_of(class.get().file()) {
        if !tell_entry(rt, table, class, index, steps)? {
            faultless = false;
        }
    }
    Ok(faultless)
}
