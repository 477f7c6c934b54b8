ghost use Rattle.std.specs.Prelude.{◌≡◌, ◌<◌, ◌^◌, ◌+◌, length, OnOk, OnErr, Ok, Err, Some};
ghost use Rattle.mvm_base.specs.Answers.{AnswersUnless};
ghost use Rattle.mvm_layout.specs.declared.fault.ClassFault.{ClassFault as Fault};
ghost use Rattle.mvm_layout.specs.declared.parts.Parts.{Parts as PartsOf};
ghost use Rattle.mvm_classfile.specs.Reading.{Reads, reading, fault_of, Says};

use crate::class_file::ClassFile;
use mvm_base::Steps;
use mvm_layout::{ClassFault, Parts, read_layout};
use mvm_shape::shape;
use std::alloc::Global;
use std::sync::ledger::Ledger;

/// What the bytes read as, or their first fault.
#[tactic(auto, unfolding(crate::specs::Reading::reading))]
fn read_parts(alloc: Global, bytes: &[u8]) -> Result<Parts, ClassFault>
    requires { length bytes.now < 2 ^ 32 }
    ensures { AnswersUnless ClassFault.OutOfMemory result (reading bytes.now) }
{
    let info = read_layout(alloc, bytes)?;
    shape(alloc, info)
}

/// The class file of what the bytes read as, or their first fault.
pub(crate) fn read_file(alloc: Global, bytes: &[u8]) -> Result<ClassFile, ClassFault>
    requires { length bytes.now < 2 ^ 32 }
    ensures { AnswersUnless ClassFault.OutOfMemory result (reading bytes.now) }
{
    let parts = read_parts(alloc, bytes)?;
    Ok(ClassFile::new(parts))
}

/// The class file that the bytes are, all of them (JVM Specification, chapter 4), or their first fault, at steps that nobody
/// counts. It is meant to take time in proportion to n log n for n bytes and memory to n, which no clause says, and keeps no reference to them.
///
/// # Errors
///
/// The first fault: of the layout, front to back; else of the lowest entry of the constant pool; else at the lowest place.
pub fn read_uncounted(alloc: Global, bytes: &[u8]) -> Result<ClassFile, ClassFault>
    requires { length bytes.now < 2 ^ 32 }
    // What each answer says of the bytes.
    ensures says { Says bytes.now result }
    // A class file is read, unless memory runs out.
    ensures reads { (parts : PartsOf) → Reads bytes.now parts → AnswersUnless ClassFault.OutOfMemory result (Ok parts) }
    // The first fault is told, unless memory runs out.
    ensures faults { (fault : Fault) → fault_of bytes.now ≡ Some fault → AnswersUnless ClassFault.OutOfMemory result (Err fault) }
{
    read_file(alloc, bytes)
}

/// What [`read_uncounted`] answers, at one step for each byte of a class file.
///
/// # Errors
///
/// As there; no step is counted then.
pub fn read_class<L: Ledger>(
    alloc: Global,
    bytes: &[u8],
    steps: &mut Steps<L>,
) -> Result<ClassFile, ClassFault>
    requires { length bytes.now < 2 ^ 32 }
    // What each answer says of the bytes.
    ensures says { Says bytes.now result }
    // A class file is read, unless memory runs out.
    ensures reads { (parts : PartsOf) → Reads bytes.now parts → AnswersUnless ClassFault.OutOfMemory result (Ok parts) }
    // The first fault is told, unless memory runs out.
    ensures faults { (fault : Fault) → fault_of bytes.now ≡ Some fault → AnswersUnless ClassFault.OutOfMemory result (Err fault) }
    ensures steps { OnOk result (steps.new ≡ steps.old + length bytes.now) }
    ensures refused { OnErr result (steps.new ≡ steps.old) }
{
    let class = read_uncounted(alloc, bytes)?;
    steps.rise(bytes.len() as u64);
    Ok(class)
}
