//! Program: `mvm_classes`, a tool for comparing and measuring, which `mvm` does not use. Its words are names of classes. It reads the
//! class file of each from the current folder, takes them as one set, and tells on standard output what loading and linking give of each,
//! from which classes it inherits, and what the entries of its constant pool stand for. What it finds is said at [`finding::find`].
//!
//! Behind the word `--first` it tells of the first class alone. Behind `--times` and a number it tells nothing: it puts the classes on the
//! shelf, and asks so many times for the first and for what its entries stand for.
//!
//! Its tests are those of the crates for classes by name.
#![tactic(auto)]

ghost use Rattle.std.specs.Prelude.{◌≡◌, ◌<◌, length};

#[cfg(test)]
mod assembled;
#[cfg(test)]
mod class_rows;
mod entries;
mod files;
mod finding;
#[cfg(test)]
mod loading_rows;
mod measure;
#[cfg(test)]
mod mirror_rows;
#[cfg(test)]
mod question;
mod refusal;
#[cfg(test)]
mod selection_rows;
mod set_files;
mod shown;
mod tell;
mod words;

use files::{name_of, table_of};
use measure::ask_times;
use mvm_base::Steps;
use mvm_outside::FolderStore;
use mvm_table::Table;
use refusal::Refusal;
use std::marker::Brand;
use std::process::ExitCode;
use std::sync::ledger::{Blank, Ledger};
use std::{env, io};
use tell::tell_class;
use words::{Wish, wish_of};

/// The status where a fault was told.
const FAULT: u8 = 1;

/// The status where a word is no name, a file can't be read, or the output can't be written.
const REFUSED: u8 = 2;

/// The status where memory ran out.
const OUT_OF_MEMORY: u8 = 6;

fn main(rt: HostRuntime) -> ExitCode {
    match told(&rt) {
        Ok(true) => ExitCode::from(0),
        Ok(false) => ExitCode::from(FAULT),
        Err(Refusal::OutOfMemory) => complain(&rt, "out of memory", OUT_OF_MEMORY),
        Err(Refusal::Usage) => complain(
            &rt,
            "usage: mvm_classes [--first | --times N] [NAME..]",
            REFUSED,
        ),
        Err(Refusal::ReadFailed) => complain(&rt, "read failed", REFUSED),
        Err(Refusal::TooLong) => complain(&rt, "input too long", REFUSED),
        Err(Refusal::WriteFailed) => complain(&rt, "write failed", REFUSED),
    }
}

/// Tells on standard error why not all was told.
fn complain(rt: &HostRuntime, why: &str, status: u8) -> ExitCode {
    let _ = eprintln!(rt; "{why}");
    ExitCode::from(status)
}

/// Does what the words ask for. It answers whether there was no fault.
fn told(rt: &HostRuntime) -> Result<bool, Refusal> {
    let words = match words_of(rt) {
        Ok(words) => words,
        Err(error) if error.kind() == io::ErrorKind::OutOfMemory => {
            return Err(Refusal::OutOfMemory);
        }
        Err(_) => return Err(Refusal::Usage),
    };
    let (wish, names) = wish_of(words.as_slice())?;
    let mut table = table_of(rt.alloc(), &mut FolderStore::new(rt), names)?;
    granted::<Brand>(rt, &mut table, wish, names, Blank::new(1))
}

/// The words of the command line, without the program's name. A word that is not UTF-8 is an error.
fn words_of(rt: &HostRuntime) -> io::Result<Vec<String>> {
    let mut words = Vec::new(rt.alloc());
    for word in env::args(rt)?.skip(1) {
        words.push(word)?;
    }
    Ok(words)
}

/// Does what is wished with the classes of a table. It answers whether there was no fault. The steps are counted in a ledger that was not
/// used before.
fn granted<L: Ledger>(
    rt: &HostRuntime,
    table: &mut Table,
    wish: Wish,
    words: &[String],
    blank: Blank,
) -> Result<bool, Refusal>
    requires name { blank.name ≡ L.name }
    requires parts { blank.parts ≡ L.parts }
    requires share { 0 < L.parts }
    requires set { 0 < length table.old.files }
{
    let mut steps = Steps::<L>::new(blank);
    match wish {
        Wish::All => tell_all(rt, table, words, &mut steps),
        Wish::First => tell_all(rt, table, &words[..words.len().min(1)], &mut steps),
        Wish::Times(times) => ask_times(rt.alloc(), table, words, times, &mut steps),
    }
}

/// Tells of the class of each word in a table. It answers whether no fault was told.
fn tell_all<L: Ledger>(
    rt: &HostRuntime,
    table: &Table,
    words: &[String],
    steps: &mut Steps<L>,
) -> Result<bool, Refusal>
    requires { 0 < length table.now.files }
{
    let mut faultless = true;
    for word in words {
        let name = name_of(rt.alloc(), word.as_str())?;
        if !tell_class(rt, table, &name, steps)? {
            faultless = false;
        }
    }
    Ok(faultless)
}
