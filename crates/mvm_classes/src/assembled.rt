// Sets of classes for tests: each class is a text (docs/ASSEMBLER.md), which is assembled.
ghost use Rattle.std.specs.Prelude.{◌<◌, ◌^◌, length, IfOk};

use crate::refusal::Refusal;
use crate::set_files::SetFiles;
use mvm_asm::{AsmFault, assemble};
use mvm_base::{List, Name};
use mvm_classfile::{ClassFile, write_class};
use mvm_set::own_name;
use mvm_table::Table;
use std::alloc::{AllocError, Global};

/// The place of the lower byte of the major version in a class file (JVM Specification 4.1).
const MAJOR: usize = 7;

/// The class file that a text says. A text that says none is answered as a word that is no name.
fn file_of(alloc: Global, text: &str) -> Result<ClassFile, Refusal> {
    if text.len() > 0xFFFF_FFFF {
        return Err(Refusal::TooLong);
    }
    match assemble(alloc, text.as_bytes()) {
        Ok(file) => Ok(file),
        Err(AsmFault::OutOfMemory) => Err(Refusal::OutOfMemory),
        Err(_) => Err(Refusal::Usage),
    }
}

/// The bytes of a class file.
fn bytes_of(alloc: Global, file: &ClassFile) -> Result<List<u8>, Refusal>
    ensures { IfOk result (λ bytes. length bytes < 2 ^ 32) }
{
    let bytes = write_class(alloc, file)?;
    if bytes.len() > 0xFFFF_FFFF {
        return Err(Refusal::TooLong);
    }
    Ok(bytes)
}

/// Adds the class that a text says, by its own name.
fn add_text(alloc: Global, classes: &mut SetFiles, text: &str) -> Result<(), Refusal> {
    let file = file_of(alloc, text)?;
    let Some(name) = own_name(&file) else {
        return Err(Refusal::Usage);
    };
    classes.add(name.copy()?, bytes_of(alloc, &file)?)
}

/// The table of one set, which has the classes that these texts say.
pub fn set_of(alloc: Global, texts: &[&str]) -> Result<Table, Refusal>
    ensures { IfOk result (λ table. 0 < length table.files) }
{
    let mut classes = SetFiles::new(alloc);
    for i in 0..texts.len() {
        add_text(alloc, &mut classes, texts[i])?;
    }
    classes.table()
}

/// The table of one set, which has these bytes as the class of a name.
fn set_of_bytes(alloc: Global, name: &str, bytes: List<u8>) -> Result<Table, Refusal>
    requires { length bytes < 2 ^ 32 }
    ensures { IfOk result (λ table. 0 < length table.files) }
{
    let mut classes = SetFiles::new(alloc);
    classes.add(Name::from_ascii(alloc, name)?, bytes)?;
    classes.table()
}

/// The table of one set, which has the class file that a text says as the class of another name.
pub fn set_under(alloc: Global, name: &str, text: &str) -> Result<Table, Refusal>
    ensures { IfOk result (λ table. 0 < length table.files) }
{
    let file = file_of(alloc, text)?;
    set_of_bytes(alloc, name, bytes_of(alloc, &file)?)
}

/// The table of one set, which has as the class of a name the class file that a text says, with another major version in it.
pub fn set_of_version(alloc: Global, name: &str, text: &str, major: u8) -> Result<Table, Refusal>
    ensures { IfOk result (λ table. 0 < length table.files) }
{
    let file = file_of(alloc, text)?;
    let mut bytes = bytes_of(alloc, &file)?;
    if MAJOR < bytes.len() {
        bytes.set(MAJOR, major);
    }
    set_of_bytes(alloc, name, bytes)
}

/// The text of the class of a number in a chain: K0, or one that extends the class before.
fn link(alloc: Global, number: u16) -> Result<String, AllocError> {
    if number == 0 {
        String::from_str(alloc, "class 33 K0 java/lang/Object")
    } else {
        let before = number - 1;
        format!(in alloc; "class 33 K{number} K{before}")
    }
}

/// The table of a chain of so many classes, K0 and so on, each of which extends the one before.
pub fn chain(alloc: Global, count: u16) -> Result<Table, Refusal>
    ensures { IfOk result (λ table. 0 < length table.files) }
{
    let mut classes = SetFiles::new(alloc);
    for number in 0..count {
        add_text(alloc, &mut classes, link(alloc, number)?.as_str())?;
    }
    classes.table()
}

/// The text of the interface of a letter and a number in a lattice: it extends both of the pair before.
fn crossing(alloc: Global, letter: &str, number: u16) -> Result<String, AllocError> {
    if number == 0 {
        format!(in alloc; "class 1537 {letter}0 java/lang/Object")
    } else {
        let before = number - 1;
        format!(in alloc;
            "class 1537 {letter}{number} java/lang/Object\nimplements A{before}\nimplements B{before}"
        )
    }
}

/// The table of a lattice: so many pairs of interfaces, A0 and B0 and so on, each of which extends both of the pair before.
pub fn lattice(alloc: Global, count: u16) -> Result<Table, Refusal>
    ensures { IfOk result (λ table. 0 < length table.files) }
{
    let mut classes = SetFiles::new(alloc);
    for number in 0..count {
        add_text(alloc, &mut classes, crossing(alloc, "A", number)?.as_str())?;
        add_text(alloc, &mut classes, crossing(alloc, "B", number)?.as_str())?;
    }
    classes.table()
}
