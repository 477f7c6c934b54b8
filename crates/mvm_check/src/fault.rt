ghost use Rattle.std.specs.Prelude.{◌≡◌};
ghost use Rattle.mvm_check.specs.declared.fault.CheckFault.TheVariants.{OutOfMemory};

use std::alloc::{AllocError, AllocFailed};

/// Which rule the code of a method does not keep (JVM Specification 4.9.1).
#[derive(Clone, Copy, Debug, PartialEq, Eq)]
pub enum CheckKind {
    /// There is no instruction of this opcode, or the code ends inside the instruction (6.5).
    BadOpcode,
    /// The instruction is left out of this machine's profile.
    Unsupported,
    /// The keys of a switch are in no order, or its rows have no count (6.5, `tableswitch` and `lookupswitch`).
    BadSwitch,
    /// A target of the instruction is not the start of an instruction of this code.
    BadTarget,
    /// An operand of the instruction names no entry of the constant pool of the kind that its opcode wants, or what stands with
    /// it does not fit.
    BadIndex,
    /// A local variable of the instruction is not below `max_locals`; or, told of the first instruction, the parameters are not.
    BadLocal,
    /// The code ends behind the instruction, which is no goto, switch, return or throw (4.9.2).
    OffEnd,
    /// A row of the exception table covers no instructions of this code, has no handler in it, catches what is no class, or
    /// stands where there is no operand stack (4.7.3).
    BadHandler,
}

/// Why the code of a class file can't be run: the first fault.
#[derive(Clone, Copy, Debug, PartialEq, Eq)]
pub enum CheckFault {
    /// The code of the method at this place of the class's list of methods, counted from 0, does not keep a rule. `at` is the
    /// place of the instruction, or for `BadHandler` the number of the row, counted from 0.
    Bad {
        method: u16,
        at: u32,
        kind: CheckKind,
    },
    /// Memory was wanted and was not to be had. No clause says when it comes.
    OutOfMemory,
}

impl From<AllocError> for CheckFault {
    ghost from_gives = { λ _ e. e ≡ OutOfMemory };

    fn from(_refused: AllocError) -> CheckFault {
        CheckFault::OutOfMemory
    }
}

impl From<mvm_base::OutOfMemory> for CheckFault {
    ghost from_gives = { λ _ e. e ≡ OutOfMemory };

    fn from(_refused: mvm_base::OutOfMemory) -> CheckFault {
        CheckFault::OutOfMemory
    }
}
