use std::alloc::AllocError;

/// What an array holds.
#[derive(Clone, Copy, Debug, PartialEq, Eq)]
pub enum ItemKind {
    /// Truth values: one bit each, in a byte.
    Boolean,
    /// Numbers of 8 bits with a sign.
    Byte,
    /// UTF-16 units.
    Char,
    /// Numbers of 16 bits with a sign.
    Short,
    /// Numbers of 32 bits with a sign.
    Int,
    /// Numbers of 64 bits with a sign.
    Long,
    /// References, or null.
    Ref,
}

/// What an object is.
#[derive(Clone, Copy, Debug, PartialEq, Eq)]
pub enum ObjectKind {
    /// An object with fields.
    Object,
    /// An array.
    Array(ItemKind),
    /// A text: the UTF-16 units of a `String`.
    Text,
}

/// Why an object was not made.
#[derive(Clone, Copy, Debug, PartialEq, Eq)]
pub enum AllocFault {
    /// The heap has fewer words left than the object needs.
    Full,
    /// Memory was wanted and was not to be had.
    OutOfMemory,
}

impl From<AllocError> for AllocFault {
    ghost use Rattle.std.specs.Prelude.{◌≡◌};
    ghost use Rattle.mvm_heap.specs.declared.kind.AllocFault.TheVariants.{OutOfMemory};

    ghost from_gives = { λ _ f. f ≡ OutOfMemory };

    fn from(_refused: AllocError) -> AllocFault {
        AllocFault::OutOfMemory
    }
}
