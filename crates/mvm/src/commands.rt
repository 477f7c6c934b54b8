ghost use Rattle.std.specs.Prelude.{◌≡◌, ◌≢◌, ◌<◌, ◌^◌, [], ◌∷◌, length, IfOk, IfErr};
ghost use Rattle.mvm_layout.specs.declared.fault.ClassFault.TheVariants as class_fault;
ghost use Rattle.mvm.specs.Commands.{IsClassFile, IsFaulty, IsRunnable, IsUnfitToRun, RunsBytes};
ghost use Rattle.mvm.specs.Running.{RunsTo};
ghost use Rattle.mvm.specs.declared.outcome.Block.{Block};
ghost use Rattle.mvm.specs.Launch.{Reading, writing, HasRead, HasMade, AnswersTo, HasOutput};
ghost use Rattle.mvm.specs.declared.words.Command.{Command};
ghost use Rattle.mvm.specs.declared.words.Command.TheVariants as commands;

use crate::alone::runs_alone;
use crate::outcome::{Outcome, What};
use crate::refusal::Refusal;
use crate::report::report;
use crate::single::run;
use mvm_asm::{AsmFault, assemble, disassemble};
use mvm_base::{List, Name, OutOfMemory};
use mvm_classfile::{ClassFault, ClassFile, read_uncounted, write_class};
use mvm_layout::pool::class_name;
use mvm_outside::{Sink, write_all};
use std::alloc::Global;

/// Runs the class file that was read, and writes its report.
pub(crate) fn run_class<K: Sink>(alloc: Global, bytes: &[u8], out: &mut K) -> What
    requires { length bytes.now < 2 ^ 32 }
    ensures answer { (source : Reading) → HasRead source bytes.now → AnswersTo commands.Run source (writing K.taken K.faults K.idle out.old out.new) result }
    ensures sink { ¬ HasOutput result → out.new ≡ out.old }
{
    let outcome = match run_bytes(alloc, bytes) {
        Ok(outcome) => outcome,
        Err(ClassFault::OutOfMemory) => return What::OutOfMemory,
        Err(fault) => return What::Refused(Refusal::Class(fault)),
    };
    let text = match report(alloc, &outcome, false) {
        Ok(text) => text,
        Err(OutOfMemory) => return What::OutOfMemory,
    };
    write_output(out, text.as_bytes(), What::Ran(outcome))
}

/// Assembles the text that was read, and writes the class file.
pub(crate) fn assemble_text<K: Sink>(alloc: Global, text: &[u8], out: &mut K) -> What
    requires { length text.now < 2 ^ 32 }
    ensures answer { (source : Reading) → HasRead source text.now → AnswersTo commands.Assemble source (writing K.taken K.faults K.idle out.old out.new) result }
    ensures sink { ¬ HasOutput result → out.new ≡ out.old }
{
    let class = match assemble(alloc, text) {
        Ok(class) => class,
        Err(AsmFault::OutOfMemory | AsmFault::Refused(ClassFault::OutOfMemory)) => {
            return What::OutOfMemory;
        }
        Err(fault) => return What::Refused(Refusal::Assembly(fault)),
    };
    let bytes = match write_class(alloc, &class) {
        Ok(bytes) => bytes,
        Err(OutOfMemory) => return What::OutOfMemory,
    };
    write_output(out, bytes.as_slice(), What::Made)
}

/// Disassembles the class file that was read, and writes its text.
pub(crate) fn disassemble_class<K: Sink>(alloc: Global, bytes: &[u8], out: &mut K) -> What
    requires { length bytes.now < 2 ^ 32 }
    ensures answer { (source : Reading) → HasRead source bytes.now → AnswersTo commands.Disassemble source (writing K.taken K.faults K.idle out.old out.new) result }
    ensures sink { ¬ HasOutput result → out.new ≡ out.old }
{
    let class = match read_file(alloc, bytes) {
        Ok(class) => class,
        Err(ClassFault::OutOfMemory) => return What::OutOfMemory,
        Err(fault) => return What::Refused(Refusal::Class(fault)),
    };
    let text = match disassemble(alloc, &class) {
        Ok(text) => text,
        Err(OutOfMemory) => return What::OutOfMemory,
    };
    write_output(out, text.as_bytes(), What::Made)
}

/// The answer of a command with this output: `what`, unless the sink fails.
#[tactic(auto, using(crate::proofs::Written::taken))]
fn write_output<K: Sink>(out: &mut K, output: &[u8], what: What) -> What
    ensures answer { (command : Command) → (source : Reading) → HasMade command source what output.now → AnswersTo command source (writing K.taken K.faults K.idle out.old out.new) result }
    ensures output { HasOutput what → HasOutput result }
{
    match write_all(out, output) {
        Ok(()) => what,
        Err(count) => What::Refused(Refusal::WriteFault(count as u64)),
    }
}

/// The class file that the bytes are, or their first fault.
fn read_file(alloc: Global, bytes: &[u8]) -> Result<ClassFile, ClassFault>
    requires { length bytes.now < 2 ^ 32 }
    ensures ok { IfOk result (IsClassFile bytes.now) }
    ensures err { IfErr result (λ fault. fault ≢ class_fault.OutOfMemory → IsFaulty bytes.now fault) }
{
    read_uncounted(alloc, bytes)
}

/// The class file that the bytes are, if it runs alone.
fn read_runnable(alloc: Global, bytes: &[u8]) -> Result<ClassFile, ClassFault>
    requires { length bytes.now < 2 ^ 32 }
    ensures ok { IfOk result (IsRunnable bytes.now) }
    ensures err { IfErr result (λ fault. fault ≢ class_fault.OutOfMemory → IsUnfitToRun bytes.now fault) }
{
    let class = read_file(alloc, bytes)?;
    if runs_alone(&class) {
        Ok(class)
    } else {
        Err(ClassFault::Unsupported(0))
    }
}

/// What is left of the one isolate that runs a class file of this name.
fn outcome_of(alloc: Global, name: &Name, bytes: &[u8]) -> Result<Outcome, OutOfMemory>
    requires { length bytes.now < 2 ^ 32 }
    ensures { IfOk result (λ outcome. (block : Block) × RunsTo name.now bytes.now block × (outcome.isolates ≡ block ∷ [])) }
{
    let block = run(alloc, name, bytes)?;
    let mut isolates = List::new(alloc);
    isolates.push(block)?;
    Ok(Outcome { isolates })
}

/// What a run of the class file leaves.
#[tactic(auto, unfolding(crate::specs::Alone::runs_alone))]
fn run_file(alloc: Global, class: &ClassFile, bytes: &[u8]) -> Result<Outcome, OutOfMemory>
    requires short { length bytes.now < 2 ^ 32 }
    requires alone { IsRunnable bytes.now class.now }
    ensures { IfOk result (RunsBytes bytes.now) }
{
    let parts = class.parts();
    match class_name(&parts.pool, parts.this_class) {
        Some(name) => outcome_of(alloc, name, bytes),
        None => unreachable!(),
    }
}

/// What a run of the class file leaves, or why the bytes can't be run.
fn run_bytes(alloc: Global, bytes: &[u8]) -> Result<Outcome, ClassFault>
    requires { length bytes.now < 2 ^ 32 }
    ensures ok { IfOk result (RunsBytes bytes.now) }
    ensures err { IfErr result (λ fault. fault ≢ class_fault.OutOfMemory → IsUnfitToRun bytes.now fault) }
{
    let class = read_runnable(alloc, bytes)?;
    match run_file(alloc, &class, bytes) {
        Ok(outcome) => Ok(outcome),
        Err(OutOfMemory) => Err(ClassFault::OutOfMemory),
    }
}
