//! Who calls, and what is left of it.

ghost use Rattle.std.specs.Prelude.{◌≡◌};

use crate::left::{After, Left, Told};

/// Who calls.
#[derive(Clone, Copy, Debug, PartialEq, Eq)]
pub struct Caller {
    /// What its thread is told.
    pub told: Told,
    /// The place behind the call.
    pub next: u32,
}

/// The thread has the object that it has, and this is left to be done.
pub(crate) fn left(told: Told, after: After) -> Left
    ensures object { result.object ≡ told.object }
    ensures after { result.after ≡ after }
{
    Left {
        object: told.object,
        after,
    }
}
