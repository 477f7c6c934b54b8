ghost use Rattle.std.specs.Prelude.{◌≡◌};
ghost use Rattle.mvm_table.specs.declared.fault.LoadFault.TheVariants.{OutOfMemory};

use mvm_check::CheckFault;
use mvm_classfile::ClassFault;
use mvm_set::LinkFault;
use std::alloc::{AllocError, AllocFailed};

/// Why a class is not loaded or linked, or an entry of the constant pool not resolved (JVM Specification 5.3, 5.4).
#[derive(Clone, Copy, Debug, PartialEq, Eq)]
pub enum LoadFault {
    /// There is no class of that name (5.3.1).
    NoClass,
    /// Its file is no class file (5.3.5, step 1).
    Format(ClassFault),
    /// It inherits from itself (5.3.5, steps 3 and 4).
    Circular,
    /// Its file is that of a class of another name (5.3.5, step 2).
    WrongName,
    /// Its superclass is an interface, or a superinterface is a class (5.3.5, steps 3 and 4).
    Super,
    /// Memory was wanted and was not to be had. No clause says when it comes.
    OutOfMemory,
    /// What a name stands for is not there, or is not accessible (5.4.3, 5.4.4).
    Link(LinkFault),
    /// The code of the class, or of a class that it inherits from, does not keep a rule (5.4.1).
    Check(CheckFault),
}

impl From<AllocError> for LoadFault {
    ghost from_gives = { λ _ e. e ≡ OutOfMemory };

    fn from(_refused: AllocError) -> LoadFault {
        LoadFault::OutOfMemory
    }
}

impl<T: Drop> From<AllocFailed<T>> for LoadFault {
    ghost from_gives = { λ _ e. e ≡ OutOfMemory };

    fn from(_refused: AllocFailed<T>) -> LoadFault {
        LoadFault::OutOfMemory
    }
}

impl From<mvm_base::OutOfMemory> for LoadFault {
    ghost from_gives = { λ _ e. e ≡ OutOfMemory };

    fn from(_refused: mvm_base::OutOfMemory) -> LoadFault {
        LoadFault::OutOfMemory
    }
}
