ghost use Rattle.std.specs.Prelude.{◌≡◌, map, string_bytes};
ghost use Rattle.mvm.specs.Status.{status_of};
ghost use Rattle.mvm.specs.Launch.{reading, writing, AnswersTo, Answers, HasOutput, CanAnswer, IsNoRefusal};

use crate::commands::{assemble_text, disassemble_class, run_class};
use crate::outcome::{Ended, What};
use crate::refusal::Refusal;
use crate::words::{Command, command_of};
use mvm_outside::{Gate, MOST_FILE_BYTES, ReadRefusal, Sink, Source, Store, read_all};
use std::alloc::Global;
use std::thread::Threads;

/// The answer to a command: its source is read to its end, and what the command makes of the bytes is written.
fn answer_to<S: Source, K: Sink>(
    alloc: Global,
    command: Command,
    script: &mut S,
    out: &mut K,
) -> What
    ensures answer { AnswersTo command (reading S.left S.faults script.old script.new) (writing K.taken K.faults K.idle out.old out.new) result }
    ensures sink { ¬ HasOutput result → out.new ≡ out.old }
{
    let bytes = match read_all(alloc, script, MOST_FILE_BYTES) {
        Ok(bytes) => bytes,
        Err(ReadRefusal::ReadFault) => return What::Refused(Refusal::ReadFault),
        Err(ReadRefusal::InputTooLong) => return What::Refused(Refusal::InputTooLong),
        Err(ReadRefusal::OutOfMemory) => return What::OutOfMemory,
    };
    match command {
        Command::Run => run_class(alloc, bytes.as_slice(), out),
        Command::Assemble => assemble_text(alloc, bytes.as_slice(), out),
        Command::Disassemble => disassemble_class(alloc, bytes.as_slice(), out),
    }
}

/// The answer of a call: that to the command that the words ask for, if they ask for one.
fn answer<S: Source, K: Sink>(alloc: Global, words: &[String], script: &mut S, out: &mut K) -> What
    ensures answer { Answers (map string_bytes words.now) (reading S.left S.faults script.old script.new) (writing K.taken K.faults K.idle out.old out.new) result }
    ensures sink { ¬ HasOutput result → out.new ≡ out.old }
{
    match command_of(words) {
        Some(command) => answer_to(alloc, command, script, out),
        None => What::Refused(Refusal::Usage),
    }
}

/// Does what the words (without the program's name) ask for. Each command reads `script` to its end and writes its output to
/// `out`, assembled whole before its first byte:
///
/// - `run` reads a class file, runs its `main` as isolate 0 with the limits that every isolate has by default, and writes the
///   report. A class file that does not run alone is refused as unsupported: this stage can't run it yet.
/// - `asm` reads the text of a class file, and writes the class file.
/// - `dump` reads a class file, and writes its text.
///
/// Every other words are a usage refusal. `files` and `gate` are not used: a class file comes from `script`, and there is one
/// isolate.
pub fn launch<R: Threads + Sync, S: Source, F: Store, K: Sink, G: Gate>(
    _rt: &R,
    alloc: Global,
    words: &[String],
    script: &mut S,
    files: &mut F,
    out: &mut K,
    _gate: &G,
) -> Ended
    // What the answer says of the words, the source, the command and the sink.
    ensures answer { Answers (map string_bytes words.now) (reading S.left S.faults script.old script.new) (writing K.taken K.faults K.idle out.old out.new) result.what }

    // Where nothing stands in the way of the command, its output is made and written, unless memory ran out.
    ensures complete { CanAnswer (map string_bytes words.now) (reading S.left S.faults script.old script.new) (writing K.taken K.faults K.idle out.old out.new) → IsNoRefusal result.what }

    // Where there was no output to write, the sink is as before.
    ensures sink { ¬ HasOutput result.what → out.new ≡ out.old }

    // The store is as before.
    ensures files { files.new ≡ files.old }

    // The status is the answer's.
    ensures status { result.status ≡ status_of result.what }
{
    Ended::new(answer(alloc, words, script, out))
}
