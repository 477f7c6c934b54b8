use crate::faults::{stopped_by, stopped_by_link};
use mvm_native::Thrown;
use mvm_set::LinkFault;
use mvm_table::LoadFault;
use std::alloc::AllocError;

/// Why an attempt does not do what it was to do.
#[derive(Clone, Copy, Debug, PartialEq, Eq)]
pub enum Stop {
    /// It throws an object of this class: a new one, or where words of the heap or a frame are missing the one that is set aside.
    Throw(Thrown),
    /// It throws the object of this number.
    Object(u32),
    /// The machine's own memory ran out. No clause says when it comes.
    OutOfMemory,
}

impl From<mvm_base::OutOfMemory> for Stop {
    ghost use Rattle.std.specs.Prelude.{◌≡◌};
    ghost use Rattle.mvm_isolate.specs.declared.stop.Stop.TheVariants.{OutOfMemory};

    ghost from_gives = { λ _ stop. stop ≡ OutOfMemory };

    fn from(_refused: mvm_base::OutOfMemory) -> Stop {
        Stop::OutOfMemory
    }
}

impl From<AllocError> for Stop {
    ghost use Rattle.std.specs.Prelude.{◌≡◌};
    ghost use Rattle.mvm_isolate.specs.declared.stop.Stop.TheVariants.{OutOfMemory};

    ghost from_gives = { λ _ stop. stop ≡ OutOfMemory };

    fn from(_refused: AllocError) -> Stop {
        Stop::OutOfMemory
    }
}

impl From<LoadFault> for Stop {
    ghost use Rattle.std.specs.Prelude.{◌≡◌};
    ghost use Rattle.mvm_isolate.specs.Faults.{stopped_by};

    ghost from_gives = { λ fault stop. stop ≡ stopped_by fault };

    fn from(fault: LoadFault) -> Stop {
        stopped_by(fault)
    }
}

impl From<LinkFault> for Stop {
    ghost use Rattle.std.specs.Prelude.{◌≡◌};
    ghost use Rattle.mvm_isolate.specs.Faults.{thrown_by_link};
    ghost use Rattle.mvm_isolate.specs.declared.stop.Stop.TheVariants.{Throw};

    ghost from_gives = { λ fault stop. stop ≡ Throw (thrown_by_link fault) };

    fn from(fault: LinkFault) -> Stop {
        stopped_by_link(fault)
    }
}
