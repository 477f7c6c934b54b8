ghost use Rattle.std.specs.Prelude.{◌≡◌};
ghost use Rattle.mvm_native.specs.Machine.{machine_of};
ghost use Rattle.mvm_native.specs.Threads.{init_thread, join, start, IsThread};
ghost use Rattle.mvm_native.specs.Throwables.{HasTwo};

use crate::env::Env;
use crate::out::{Out, Thrown};
use mvm_base::Word;

/// The constructors of `Thread`: what the thread is to run, which may be null.
#[tactic(auto, unfolding(crate::specs::Threads::init_thread))]
pub fn init_thread(env: &mut Env, object: u32, target: Word) -> Out
    requires { HasTwo env.old.heap.state.objects object }
    ensures { init_thread object target (machine_of env.old) ≡ (result, machine_of env.new) }
{
    env.heap.set_field(object, 0, target);
    Out::Value(None)
}

/// `Thread.start`: the thread starts, if it was not started before.
#[tactic(auto, unfolding(crate::specs::Threads::start))]
pub fn start(env: &Env, object: u32) -> Out
    requires { IsThread env.now.heap.state.objects object }
    ensures { result ≡ start object (machine_of env.now) }
{
    if env.heap.number(object, 1) == 0 {
        Out::Start(object)
    } else {
        Out::Throw(Thrown::IllegalThreadStateException)
    }
}

/// `Thread.join`.
#[tactic(auto, unfolding(crate::specs::Threads::join))]
pub fn join(env: &Env, object: u32) -> Out
    requires { IsThread env.now.heap.state.objects object }
    ensures { result ≡ join object (machine_of env.now) }
{
    let number = env.heap.number(object, 1);
    if number == 0 {
        Out::Value(None)
    } else {
        Out::Join((number - 1) as u32)
    }
}
