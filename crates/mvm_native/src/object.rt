ghost use Rattle.std.specs.Prelude.{◌≡◌, ◌<◌, length};
ghost use Rattle.mvm_native.specs.Machine.{machine_of, Called};
ghost use Rattle.mvm_native.specs.Objects.{is_same, notify, object_equals, owns, wait, CanWait};

use crate::env::Env;
use crate::out::{Out, Thrown, truth};
use mvm_base::Word;

fn is_same(a: Word, b: Word) -> bool
    ensures { result ≡ is_same a b }
{
    match (a, b) {
        (Word::Ref(a), Word::Ref(b)) => a == b,
        _ => false,
    }
}

/// `Object.equals`: whether both are one object.
#[tactic(auto, unfolding(crate::specs::Objects::object_equals))]
pub fn object_equals(a: Word, b: Word) -> Out
    ensures { result ≡ object_equals a b }
{
    truth(is_same(a, b))
}

/// Whether the calling thread owns the monitor of an object.
fn owns(env: &Env, object: u32) -> bool
    requires { object < length env.now.heap.state.objects }
    ensures { result ≡ owns (machine_of env.now) object }
{
    match env.heap.monitor(object).owner {
        Some(owner) => owner == env.thread,
        None => false,
    }
}

/// `Object.wait`: the calling thread waits behind all others.
#[tactic(auto, unfolding(crate::specs::Objects::wait))]
pub fn wait(env: &mut Env, object: u32) -> Out
    requires { CanWait object (machine_of env.old) }
    ensures { wait object (machine_of env.old) ≡ (result, machine_of env.new) }
{
    if !owns(env, object) {
        return Out::Throw(Thrown::IllegalMonitorStateException);
    }
    env.waits.add(object, env.thread);
    Out::Wait(object)
}

/// `Object.notify`, and where `all` is true `Object.notifyAll`.
#[tactic(auto, unfolding(crate::specs::Objects::notify))]
pub fn notify(env: &Env, all: bool, object: u32) -> Out
    requires { object < length env.now.heap.state.objects }
    ensures { result ≡ notify all object (machine_of env.now) }
{
    if owns(env, object) {
        Out::Notify(object, all)
    } else {
        Out::Throw(Thrown::IllegalMonitorStateException)
    }
}
