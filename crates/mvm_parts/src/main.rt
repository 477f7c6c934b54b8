//! Program: `mvm_parts`, a tool for comparing and timing the parts of a step, which `mvm` does not use.
//!
//! `mvm_parts ROW..` tells for each row what it leaves. A row is an instruction by its mnemonic and the operands that it finds, the lowest
//! first: `isub I7 I9` leaves `I-2`; or values and native methods, each of which is called with all values so far. An int is written with an
//! I before it, a long with a J. What an instruction leaves is said at [`instruction::left_by`], and a row of native methods is read by
//! [`natives::tell_calls`].
//!
//! `mvm_parts --times PART COUNT SIZE` tells nothing. It does so many operations on a part of so many frames, items or words.
#![tactic(auto)]

mod appends;
mod instruction;
mod natives;
#[cfg(test)]
mod part_rows;
mod row;
mod shuffle;
mod times;

use mvm_base::OutOfMemory;
use row::tell_row;
use std::process::ExitCode;
use std::{env, io};
use times::{Part, repeat};

/// The status where a row is none, or an instruction is refused.
const FAULT: u8 = 1;

/// The status where the words are no such words, or the output can't be written.
const REFUSED: u8 = 2;

/// The status where memory ran out.
const OUT_OF_MEMORY: u8 = 6;

fn main(rt: HostRuntime) -> ExitCode {
    match told(&rt) {
        Ok(true) => ExitCode::from(0),
        Ok(false) => ExitCode::from(FAULT),
        Err(error) if error.kind() == io::ErrorKind::OutOfMemory => {
            complain(&rt, "out of memory", OUT_OF_MEMORY)
        }
        Err(_) => complain(
            &rt,
            "usage: mvm_parts ROW.. | --times PART COUNT SIZE",
            REFUSED,
        ),
    }
}

/// Tells on standard error why not all was told.
fn complain(rt: &HostRuntime, why: &str, status: u8) -> ExitCode {
    let _ = eprintln!(rt; "{why}");
    ExitCode::from(status)
}

/// Does what the words ask for. It answers whether each row was one.
fn told(rt: &HostRuntime) -> io::Result<bool> {
    let mut words = Vec::new(rt.alloc());
    for word in env::args(rt)?.skip(1) {
        words.push(word)?;
    }
    if let [option, part, count, size] = words.as_slice() {
        if option.as_str() == "--times" {
            return timed(rt, part.as_str(), count.as_str(), size.as_str());
        }
    }
    let mut all = true;
    for word in words.as_slice() {
        if !tell_row(rt, word.as_str())? {
            all = false;
        }
    }
    Ok(all)
}

/// Does so many operations on a part of so many things. It answers whether the words say what to do.
fn timed(rt: &HostRuntime, part: &str, count: &str, size: &str) -> io::Result<bool> {
    let Some(part) = Part::named(part) else {
        return Ok(false);
    };
    let (Ok(count), Ok(size)) = (count.parse::<u32>(), size.parse::<u32>()) else {
        return Ok(false);
    };
    match repeat(rt.alloc(), part, count, size) {
        Ok(all) => Ok(all),
        Err(OutOfMemory) => Err(io::Error::from(io::ErrorKind::OutOfMemory)),
    }
}
