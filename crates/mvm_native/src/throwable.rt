ghost use Rattle.std.specs.Prelude.{◌≡◌, ◌<◌, length};
ghost use Rattle.mvm_heap.specs.Heap.{object_at};
ghost use Rattle.mvm_native.specs.Machine.{machine_of};
ghost use Rattle.mvm_native.specs.Throwables.{init_throwable, reference_in, HasTwo};

use crate::env::Env;
use crate::out::{Out, gives};
use mvm_base::{Kind, Word};

/// The constructors of throwables: a message and a cause, either of which may be null.
#[tactic(auto, unfolding(crate::specs::Throwables::init_throwable))]
pub fn init_throwable(env: &mut Env, object: u32, message: Word, cause: Word) -> Out
    requires { HasTwo env.old.heap.state.objects object }
    ensures { init_throwable object message cause (machine_of env.old) ≡ (result, machine_of env.new) }
{
    env.heap.set_field(object, 0, message);
    env.heap.set_field(object, 1, cause);
    Out::Value(None)
}

/// `Throwable.getMessage` and `Throwable.getCause`: what a field refers to.
pub fn reference_in(env: &Env, object: u32, slot: u32) -> Out
    requires { slot < length (object_at env.now.heap.state.objects object).contents }
    ensures { result ≡ reference_in object slot (machine_of env.now) }
{
    gives(env.heap.get_field(object, slot, Kind::Ref))
}
