use mvm_layout::ClassFault;
use mvm_statement::AsmKind;
use std::alloc::AllocError;

/// Why a text is assembled to no class file.
#[derive(Clone, Copy, Debug, PartialEq, Eq)]
pub enum AsmFault {
    /// The first fault of the text: the number of its line, counted from 1, and what is wrong there.
    At(u32, AsmKind),
    /// The text has none, and what it says is no class file, for this fault.
    Refused(ClassFault),
    /// Memory was wanted and was not to be had.
    OutOfMemory,
}

/// Why a line can't be taken.
#[derive(Clone, Copy, Debug, PartialEq, Eq)]
pub enum StepFault {
    /// What is wrong with it.
    Kind(AsmKind),
    /// Memory was wanted and was not to be had.
    OutOfMemory,
}

impl From<AllocError> for StepFault {
    ghost use Rattle.std.specs.Prelude.{◌≡◌};
    ghost use Rattle.mvm_listing.specs.declared.fault.StepFault.TheVariants.{OutOfMemory};

    ghost from_gives = { λ _ e. e ≡ OutOfMemory };

    fn from(_refused: AllocError) -> StepFault {
        StepFault::OutOfMemory
    }
}
