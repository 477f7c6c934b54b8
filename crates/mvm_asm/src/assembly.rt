ghost use Rattle.std.specs.Prelude.{◌≡◌, ◌<◌, ◌^◌, length, Ok, Err};
ghost use Rattle.mvm_base.specs.Answers.{AnswersUnless};
ghost use Rattle.mvm_listing.specs.Assembly.{class_of};

use crate::going::assembled;
use mvm_classfile::{ClassFault, ClassFile};
use mvm_listing::AsmFault;
use std::alloc::Global;

/// The class file that a text says, line by line, or its first fault.
///
/// # Errors
///
/// `At` tells the lowest line with a fault, counted from 1, and of its faults the one of the lowest number: an unknown first word, an
/// operand, a number or an offset that does not fit, a label, a line that may not stand there, the constant pool. Where the text has
/// none, `Refused` tells what is wrong with the class file that it says (JVM Specification, chapter 4).
#[tactic(auto, unfolding(mvm_listing::specs::Assembly::class_of))]
pub fn assemble(alloc: Global, text: &[u8]) -> Result<ClassFile, AsmFault>
    requires { length text.now < 2 ^ 32 }
    // The class file, or the first fault, of the definition.
    ensures exact { AnswersUnless AsmFault.OutOfMemory result (class_of text.now) }
{
    let parts = assembled(alloc, text)?;
    match ClassFile::from_parts(alloc, parts) {
        Ok(class) => Ok(class),
        Err(ClassFault::OutOfMemory) => Err(AsmFault::OutOfMemory),
        Err(fault) => Err(AsmFault::Refused(fault)),
    }
}
