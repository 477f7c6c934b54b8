//! Program: `mvm`, which runs Java applications. At this stage it runs one class file that it reads from standard input, or
//! writes it as text, or makes it from its text.
//!
//! The program hands [`launch::launch`] its words, standard input, the current folder and standard output, prints what a
//! refusal reads as on standard error, and ends with the status. What `launch` promises stands at it.
#![tactic(auto)]

mod alone;
#[cfg(test)]
mod assembly_rows;
mod commands;
#[cfg(test)]
mod edge_rows;
#[cfg(test)]
mod files;
#[cfg(test)]
mod initialising_rows;
#[cfg(test)]
mod kind_rows;
mod launch;
#[cfg(test)]
mod limit_rows;
mod outcome;
#[cfg(test)]
mod program_rows;
mod refusal;
mod report;
#[cfg(test)]
mod set_rows;
mod single;
#[cfg(test)]
mod single_rows;
#[cfg(test)]
mod tests;
mod texts;
#[cfg(test)]
mod thread_rows;
mod words;
#[cfg(test)]
mod worked_rows;

use launch::launch;
use mvm_base::OutOfMemory;
use mvm_outside::{FolderStore, NoGate, ReadSource, WriteSink};
use outcome::{Ended, What};
use refusal::{Refusal, refusal_text};
use std::process::ExitCode;
use std::{env, io};

fn main(rt: HostRuntime) -> ExitCode {
    let ended = match words_of(&rt) {
        Ok(words) => launch(
            &rt,
            rt.alloc(),
            words.as_slice(),
            &mut ReadSource::new(rt.stdin()),
            &mut FolderStore::new(&rt),
            &mut WriteSink::new(rt.stdout()),
            &NoGate,
        ),
        Err(error) if error.kind() == io::ErrorKind::OutOfMemory => Ended::new(What::OutOfMemory),
        Err(_) => Ended::new(What::Refused(Refusal::Usage)),
    };
    complain(&rt, &ended.what);
    ExitCode::from(ended.status)
}

/// The words of the command line, without the program's name. A word that is not UTF-8 is an error.
fn words_of(rt: &HostRuntime) -> io::Result<Vec<String>> {
    let mut words = Vec::new(rt.alloc());
    for word in env::args(rt)?.skip(1) {
        words.push(word)?;
    }
    Ok(words)
}

/// Tells on standard error why there was no run to the end. Where that can't be told, the status tells it alone.
fn complain(rt: &HostRuntime, what: &What) {
    let _ = match what {
        What::Ran(_) | What::Made => Ok(()),
        What::Refused(refusal) => match refusal_text(rt.alloc(), refusal) {
            Ok(text) => eprintln!(rt; "{}", text.as_str()),
            Err(OutOfMemory) => eprintln!(rt; "out of memory"),
        },
        What::OutOfMemory => eprintln!(rt; "out of memory"),
    };
}
