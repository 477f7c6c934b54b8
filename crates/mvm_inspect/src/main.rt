//! Program: `mvm_inspect`, a tool for comparing and measuring, which `mvm` does not use. It reads a class file from standard
//! input, checks its code, and tells on standard output what is wrong with it, or `Ok`. What it finds is said at
//! [`inspect::inspect`].
//!
//! A number from 1 to 4,294,967,295 as its one word is how many times over it does so; it tells the last finding.
#![tactic(auto)]

ghost use Rattle.std.specs.Prelude.{◌<◌, ◌^◌, length};
ghost use Rattle.mvm_inspect.specs.Finding.{Finds};

#[cfg(test)]
mod entry_rows;
mod inspect;
#[cfg(test)]
mod interface_rows;
#[cfg(test)]
mod text_rows;
#[cfg(test)]
mod worked_rows;

use inspect::{Finding, inspect};
use mvm_base::List;
use mvm_outside::{MOST_FILE_BYTES, ReadRefusal, ReadSource, read_all};
use std::process::ExitCode;
use std::{env, io};

/// The status where something is wrong with the class file.
const FAULT: u8 = 1;

/// The status where the words are no such number, the input can't be read, or the finding can't be told.
const REFUSED: u8 = 2;

/// The status where memory ran out.
const OUT_OF_MEMORY: u8 = 6;

fn main(rt: HostRuntime) -> ExitCode {
    let times = match times_of(&rt) {
        Ok(Some(times)) => times,
        Err(error) if error.kind() == io::ErrorKind::OutOfMemory => {
            return complain(&rt, "out of memory", OUT_OF_MEMORY);
        }
        Ok(None) | Err(_) => return complain(&rt, "usage: mvm_inspect [TIMES]", REFUSED),
    };
    let mut source = ReadSource::new(rt.stdin());
    match read_all(rt.alloc(), &mut source, MOST_FILE_BYTES) {
        Ok(bytes) => tell(&rt, inspect_times(&rt, &bytes, times)),
        Err(ReadRefusal::ReadFault) => complain(&rt, "read failed", REFUSED),
        Err(ReadRefusal::InputTooLong) => complain(&rt, "input too long", REFUSED),
        Err(ReadRefusal::OutOfMemory) => complain(&rt, "out of memory", OUT_OF_MEMORY),
    }
}

/// Tells on standard error why there is no finding.
fn complain(rt: &HostRuntime, why: &str, status: u8) -> ExitCode {
    let _ = eprintln!(rt; "{why}");
    ExitCode::from(status)
}

/// How many times over the input is to be looked at, if the words say that.
fn times_of(rt: &HostRuntime) -> io::Result<Option<u32>> {
    let mut words = Vec::new(rt.alloc());
    for word in env::args(rt)?.skip(1) {
        words.push(word)?;
    }
    match words.as_slice() {
        [] => Ok(Some(1)),
        [word] => match word.parse::<u32>() {
            Ok(0) | Err(_) => Ok(None),
            Ok(times) => Ok(Some(times)),
        },
        _ => Ok(None),
    }
}

/// The last finding of so many, and of one at least.
fn inspect_times(rt: &HostRuntime, bytes: &List<u8>, times: u32) -> Finding
    requires { length bytes.now < 2 ^ 32 }
    ensures { Finds bytes.now result }
{
    let mut finding = inspect(rt.alloc(), bytes.as_slice());
    for _ in 1..times {
        finding = inspect(rt.alloc(), bytes.as_slice());
    }
    finding
}

/// Tells the finding on standard output, and want of memory on standard error.
fn tell(rt: &HostRuntime, finding: Finding) -> ExitCode {
    let (told, status) = match finding {
        Finding::Sound => (println!(rt; "Ok"), 0),
        Finding::Class(fault) => (println!(rt; "{fault:?}"), FAULT),
        Finding::Code(fault) => (println!(rt; "{fault:?}"), FAULT),
        Finding::OutOfMemory => return complain(rt, "out of memory", OUT_OF_MEMORY),
    };
    match told {
        Ok(()) => ExitCode::from(status),
        Err(_) => ExitCode::from(REFUSED),
    }
}
