ghost use Rattle.std.specs.Prelude.{◌≡◌};

use mvm_invoke::{After, Left, Told};
use mvm_object::ThreadState;

/// The thread has the object that it has, and does this from then on.
pub(crate) fn does(told: Told, state: ThreadState) -> Left
    ensures object { result.object ≡ told.object }
    ensures after { result.after ≡ After.Does state }
{
    Left {
        object: told.object,
        after: After::Does(state),
    }
}
