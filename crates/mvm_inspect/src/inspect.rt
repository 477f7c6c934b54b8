ghost use Rattle.std.specs.Prelude.{◌<◌, ◌^◌, length};
ghost use Rattle.mvm_inspect.specs.Finding.{Finds};

use mvm_check::{CheckFault, check};
use mvm_classfile::{ClassFault, read_uncounted};
use std::alloc::Global;

/// What is wrong with the bytes of a class file.
#[derive(Clone, Copy, Debug, PartialEq, Eq)]
pub enum Finding {
    /// Nothing: they are a class file, and its code keeps the rules.
    Sound,
    /// They are no class file. This is their first fault.
    Class(ClassFault),
    /// They are a class file whose code does not keep the rules. This is the code's first fault.
    Code(CheckFault),
    /// Memory was wanted and was not to be had. Nothing was found out of the bytes.
    OutOfMemory,
}

/// Reads the class file (JVM Specification, chapter 4) and checks its code (4.9).
pub fn inspect(alloc: Global, bytes: &[u8]) -> Finding
    requires { length bytes.now < 2 ^ 32 }
    ensures { Finds bytes.now result }
{
    let class = match read_uncounted(alloc, bytes) {
        Ok(class) => class,
        Err(ClassFault::OutOfMemory) => return Finding::OutOfMemory,
        Err(fault) => return Finding::Class(fault),
    };
    match check(alloc, &class) {
        Ok(()) => Finding::Sound,
        Err(CheckFault::OutOfMemory) => Finding::OutOfMemory,
        Err(fault) => Finding::Code(fault),
    }
}
