use std::alloc::{AllocError, AllocFailed};

/// What is wrong with a line, the lowest number first.
#[derive(Clone, Copy, Debug, PartialEq, Eq)]
pub enum AsmKind {
    /// 1: the first token begins no line, or the line is not UTF-8.
    Word,
    /// 2: an operand is missing, surplus or ill-formed.
    Operand,
    /// 3: a number, or the offset or the place that stands for a label, does not fit its field.
    Range,
    /// 4: a label is given twice, or unknown.
    Label,
    /// 5: the line is not allowed here, or the text ends too early.
    Order,
    /// 6: the entry of the constant pool has another index than the next, or no index is left.
    Pool,
}

/// Why a line by itself says nothing.
#[derive(Clone, Copy, Debug, PartialEq, Eq)]
pub enum LineFault {
    /// The first token begins no line, or the line is not UTF-8.
    Word,
    /// An operand is missing, surplus or ill-formed.
    Operand,
    /// Memory was wanted and was not to be had. No clause says when it comes.
    OutOfMemory,
}

/// Why operands could not be read.
#[derive(Clone, Copy, Debug, PartialEq, Eq)]
pub(crate) enum Unread {
    /// An operand is missing, surplus or ill-formed.
    IllFormed,
    /// Memory was wanted and was not to be had.
    OutOfMemory,
}

impl From<AllocError> for Unread {
    ghost use Rattle.std.specs.Prelude.{◌≡◌};
    ghost use Rattle.mvm_statement.specs.declared.fault.Unread.TheVariants.{OutOfMemory};

    ghost from_gives = { λ _ e. e ≡ OutOfMemory };

    fn from(_refused: AllocError) -> Unread {
        Unread::OutOfMemory
    }
}

impl<T: Drop> From<AllocFailed<T>> for Unread {
    ghost use Rattle.std.specs.Prelude.{◌≡◌};
    ghost use Rattle.mvm_statement.specs.declared.fault.Unread.TheVariants.{OutOfMemory};

    ghost from_gives = { λ _ e. e ≡ OutOfMemory };

    fn from(_refused: AllocFailed<T>) -> Unread {
        Unread::OutOfMemory
    }
}

impl From<AllocError> for LineFault {
    ghost use Rattle.std.specs.Prelude.{◌≡◌};
    ghost use Rattle.mvm_statement.specs.declared.fault.LineFault.TheVariants.{OutOfMemory};

    ghost from_gives = { λ _ e. e ≡ OutOfMemory };

    fn from(_refused: AllocError) -> LineFault {
        LineFault::OutOfMemory
    }
}
