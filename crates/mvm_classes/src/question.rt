// Questions that tests ask of a class of a set by its name, and the answers as text: a field or a method is told by the place of its class
// in the walk, and by the class, the name and the descriptor; a fault by its name.
ghost use Rattle.std.specs.Prelude.{◌≡◌, ◌<◌, length, IfOk};
ghost use Rattle.mvm_table.specs.Loads.{IsLoaded};

use crate::shown::{ClassName, field_of, method_of};
use mvm_base::{List, Name, Steps};
use mvm_select::{find_interface_method, find_method, select, select_from, select_interface};
use mvm_set::{
    Class, Found, LinkFault, MethodAt, Shared, accessible, find_field, is_interface, is_subclass,
};
use mvm_table::{LoadFault, Resolved, Table};
use std::alloc::{AllocError, Global};
use std::marker::Brand;
use std::process::Abort;
use std::sync::ledger::{Blank, Ledger};
use std::test::Fail;

/// What is asked of a class. A method is meant by the class that a call names, its name and its descriptor.
#[derive(Clone, Copy)]
pub(crate) enum Question {
    /// Whether it links.
    Links,
    /// Whether it stands on the shelf.
    Shelved,
    /// How many classes its line and its walk have.
    Supers,
    /// Whether it is the class of a name, or inherits from it.
    Under(&'static str),
    /// Whether it may use a member of the class of a name that has these flags.
    MayUse(&'static str, u16),
    /// Its field of a name and a descriptor.
    Field(&'static str, &'static str),
    /// Its method of a name and a descriptor, as that of a class.
    Method(&'static str, &'static str),
    /// The same as that of an interface.
    InterfaceMethod(&'static str, &'static str),
    /// What `invokevirtual` selects in it.
    Virtual(&'static str, &'static str, &'static str),
    /// What `invokeinterface` selects in it.
    Interface(&'static str, &'static str, &'static str),
    /// What `invokespecial` selects, from it upwards.
    Special(&'static str, &'static str, &'static str),
    /// What an entry of its constant pool stands for.
    Entry(u16),
}

/// Loads the class of a name, with the steps counted in a ledger that was not used before.
fn class_counted<L: Ledger>(
    table: &Table,
    name: &Name,
    blank: Blank,
) -> Result<Shared<Class>, LoadFault>
    requires name { blank.name ≡ L.name }
    requires parts { blank.parts ≡ L.parts }
    requires share { 0 < L.parts }
    requires set { 0 < length table.now.files }
    ensures { IfOk result (λ class. IsLoaded table.now.files class) }
{
    let mut steps = Steps::<L>::new(blank);
    table.class(0, name, &mut steps)
}

/// The class of a name in the first set of a table.
pub fn class_of(alloc: Global, table: &Table, name: &str) -> Result<Shared<Class>, LoadFault>
    requires { 0 < length table.now.files }
    ensures { IfOk result (λ class. IsLoaded table.now.files class) }
{
    let name = Name::from_ascii(alloc, name)?;
    class_counted::<Brand>(table, &name, Blank::new(1))
}

/// Links a class, with the steps counted in a ledger that was not used before.
fn linked_counted<L: Ledger>(
    table: &Table,
    class: &Shared<Class>,
    blank: Blank,
) -> Result<(), LoadFault>
    requires name { blank.name ≡ L.name }
    requires parts { blank.parts ≡ L.parts }
    requires share { 0 < L.parts }
    requires loaded { IsLoaded table.now.files class.now }
{
    let mut steps = Steps::<L>::new(blank);
    table.linked(class, &mut steps)
}

/// The first fault of linking a class.
fn linked(table: &Table, class: &Shared<Class>) -> Result<(), LoadFault>
    requires { IsLoaded table.now.files class.now }
{
    linked_counted::<Brand>(table, class, Blank::new(1))
}

/// Resolves an entry of a constant pool, with the steps counted in a ledger that was not used before.
fn entry_counted<L: Ledger>(
    table: &Table,
    class: &Shared<Class>,
    index: u16,
    blank: Blank,
) -> Result<Resolved, LoadFault>
    requires name { blank.name ≡ L.name }
    requires parts { blank.parts ≡ L.parts }
    requires share { 0 < L.parts }
    requires loaded { IsLoaded table.now.files class.now }
{
    let mut steps = Steps::<L>::new(blank);
    table.resolve(class, index, &mut steps)
}

/// What an entry of the constant pool of a class stands for.
fn entry_of(table: &Table, class: &Shared<Class>, index: u16) -> Result<Resolved, LoadFault>
    requires { IsLoaded table.now.files class.now }
{
    entry_counted::<Brand>(table, class, index, Blank::new(1))
}

/// Where a field was found in a class.
fn field_told(
    alloc: Global,
    class: &Class,
    found: Result<Found, LinkFault>,
) -> Result<String, AllocError> {
    match found {
        Ok(found) => match field_of(class, found) {
            Some(field) => format!(in alloc; "{} {field}", found.holder),
            None => String::from_str(alloc, "nowhere"),
        },
        Err(fault) => format!(in alloc; "{fault:?}"),
    }
}

/// Where a method was found in a class.
fn method_told(
    alloc: Global,
    class: &Class,
    found: Result<Found, LinkFault>,
) -> Result<String, AllocError> {
    match found {
        Ok(found) => match method_of(class, found) {
            Some(method) => format!(in alloc; "{} {method}", found.holder),
            None => String::from_str(alloc, "nowhere"),
        },
        Err(fault) => format!(in alloc; "{fault:?}"),
    }
}

/// What an entry of a constant pool stands for.
fn resolved_told(alloc: Global, resolved: &Resolved) -> Result<String, AllocError> {
    match resolved {
        Resolved::Class(class) => {
            let class = ClassName(class.get().file());
            format!(in alloc; "class {class}")
        }
        Resolved::Field(at) => field_told(alloc, at.class.get(), Ok(at.found)),
        Resolved::Method(at) => method_told(alloc, at.class.get(), Ok(at.found)),
        _ => String::from_str(alloc, "other"),
    }
}

/// Where a class or an interface has a method.
fn found_in(class: &Class, name: &Name, desc: &Name) -> Result<Found, LinkFault> {
    if is_interface(class.file()) {
        find_interface_method(class, name, desc)
    } else {
        find_method(class, name, desc)
    }
}

/// The method that a call names.
fn named(alloc: Global, table: &Table, method: (&str, &str, &str)) -> Result<MethodAt, LoadFault>
    requires { 0 < length table.now.files }
{
    let class = class_of(alloc, table, method.0)?;
    let name = Name::from_ascii(alloc, method.1)?;
    let desc = Name::from_ascii(alloc, method.2)?;
    match found_in(class.get(), &name, &desc) {
        Ok(found) => Ok(MethodAt { class, found }),
        Err(fault) => Err(LoadFault::Link(fault)),
    }
}

/// The answer for a class that needs no other, and no entry of its constant pool.
fn told_alone(alloc: Global, class: &Class, question: Question) -> Result<String, AllocError> {
    match question {
        Question::Supers => { format!(in alloc; "{} {}", class.line().len(), class.walk().len()) }
        Question::Under(above) => {
            let above = Name::from_ascii(alloc, above)?;
            format!(in alloc; "{}", is_subclass(class, &above))
        }
        Question::MayUse(holder, flags) => {
            let holder = Name::from_ascii(alloc, holder)?;
            format!(in alloc; "{}", accessible(class, &holder, flags))
        }
        Question::Field(name, desc) => {
            let name = Name::from_ascii(alloc, name)?;
            let desc = Name::from_ascii(alloc, desc)?;
            field_told(alloc, class, find_field(class, &name, &desc))
        }
        Question::Method(name, desc) => {
            let name = Name::from_ascii(alloc, name)?;
            let desc = Name::from_ascii(alloc, desc)?;
            method_told(alloc, class, find_method(class, &name, &desc))
        }
        Question::InterfaceMethod(name, desc) => {
            let name = Name::from_ascii(alloc, name)?;
            let desc = Name::from_ascii(alloc, desc)?;
            method_told(alloc, class, find_interface_method(class, &name, &desc))
        }
        _ => String::from_str(alloc, "other"),
    }
}

/// The answer for a class.
fn told_of(
    alloc: Global,
    table: &Table,
    class: &Shared<Class>,
    question: Question,
) -> Result<String, LoadFault>
    requires set { 0 < length table.now.files }
    requires loaded { IsLoaded table.now.files class.now }
{
    let found = match question {
        Question::Links => {
            linked(table, class)?;
            return Ok(String::from_str(alloc, "links")?);
        }
        Question::Shelved => return Ok(format!(in alloc; "{}", table.shelved(class))?),
        Question::Entry(index) => {
            let resolved = entry_of(table, class, index)?;
            return Ok(resolved_told(alloc, &resolved)?);
        }
        Question::Virtual(holder, name, desc) => {
            let method = named(alloc, table, (holder, name, desc))?;
            select(class.get(), &method)
        }
        Question::Interface(holder, name, desc) => {
            let method = named(alloc, table, (holder, name, desc))?;
            select_interface(class.get(), &method)
        }
        Question::Special(holder, name, desc) => {
            let method = named(alloc, table, (holder, name, desc))?;
            select_from(class.get(), &method)
        }
        _ => return Ok(told_alone(alloc, class.get(), question)?),
    };
    Ok(method_told(alloc, class.get(), found)?)
}

/// The answer for the class of a name, or the fault of loading it.
fn told(alloc: Global, table: &Table, name: &str, question: Question) -> Result<String, LoadFault>
    requires { 0 < length table.now.files }
{
    let class = class_of(alloc, table, name)?;
    told_of(alloc, table, &class, question)
}

/// The answer for the class of a name in the first set of a table.
pub(crate) fn answer(
    alloc: Global,
    table: &Table,
    name: &str,
    question: Question,
) -> Result<String, AllocError>
    requires { 0 < length table.now.files }
{
    match told(alloc, table, name, question) {
        Ok(told) => Ok(told),
        Err(LoadFault::OutOfMemory) => Err(AllocError),
        Err(fault) => format!(in alloc; "{fault:?}"),
    }
}

/// A row of a table: the name of a class, what is asked of it, and the answer.
pub(crate) type Row = (&'static str, Question, &'static str);

/// Tests that each of these questions has the answer of its row.
pub(crate) fn test_rows<R: Abort>(
    rt: &R,
    alloc: Global,
    table: &Table,
    rows: &[Row],
) -> Result<(), Fail>
    requires { 0 < length table.now.files }
{
    for (class, question, wanted) in rows {
        let told = answer(alloc, table, class, *question)?;
        assert_eq!(rt; told.as_str(), *wanted);
    }
    Ok(())
}

/// Puts the class of a name on the shelf.
pub fn shelve(alloc: Global, table: &mut Table, name: &str) -> Result<(), LoadFault>
    requires { 0 < length table.old.files }
    ensures { table.new.files ≡ table.old.files }
{
    let mut fresh = List::new(alloc);
    fresh.push(class_of(alloc, table, name)?)?;
    Ok(table.shelve(&fresh)?)
}
