ghost use Rattle.std.specs.Prelude.{◌≡◌, ◌<◌, length, true, Ok};
ghost use Rattle.mvm_classes.specs.Finding.{Links};

use crate::entries::tell_entries;
use crate::finding::{Finding, find};
use crate::refusal::Refusal;
use crate::shown::{ClassName, Shown};
use mvm_base::{Name, Steps};
use mvm_set::{Class, Own, Shared};
use mvm_table::Table;
use std::io;
use std::sync::ledger::Ledger;

/// Tells what is found of the class of a name, and what the entries of its constant pool stand for. It answers whether no fault was told.
pub fn tell_class<L: Ledger, R: Print>(
    rt: &R,
    table: &Table,
    name: &Name,
    steps: &mut Steps<L>,
) -> Result<bool, Refusal>
    requires { 0 < length table.now.files }
    ensures { result ≡ Ok true → Links table.now.files name.now }
{
    let shown = Shown(name);
    match find(table, name, steps) {
        Finding::Linked(class) => {
            println!(rt; "class {shown}")?;
            println!(rt; "linked {shown}")?;
            tell_supers(rt, class.get())?;
            tell_entries(rt, table, &class, steps)
        }
        Finding::Unlinked(class, fault) => {
            println!(rt; "class {shown}")?;
            println!(rt; "linked {shown}: {fault:?}")?;
            tell_supers(rt, class.get())?;
            Ok(false)
        }
        Finding::Unloaded(fault) => {
            println!(rt; "class {shown}: {fault:?}")?;
            Ok(false)
        }
        Finding::OutOfMemory => Err(Refusal::OutOfMemory),
    }
}

/// Tells the class and its superclasses, nearest first, and all classes that it inherits from, in the order of field resolution.
fn tell_supers<R: Print>(rt: &R, class: &Class) -> io::Result<()> {
    tell_names(rt, "line", class.line())?;
    tell_names(rt, "walk", class.walk())
}

/// Tells the names of classes, behind a word.
fn tell_names<R: Print>(rt: &R, what: &str, owns: &[Shared<Own>]) -> io::Result<()> {
    print!(rt; "{what}")?;
    for i in 0..owns.len() {
        let name = ClassName(owns[i].get().file());
        print!(rt; " {name}")?;
    }
    println!(rt; "")
}
