ghost use Rattle.std.specs.Prelude.{◌≡◌};
ghost use Rattle.mvm_native.specs.Isolates.{asked_or_throw, halt_isolate, isolate_number, other_isolate, start_isolate, IsNumbered};
ghost use Rattle.mvm_native.specs.Machine.{machine_of};

use crate::env::Env;
use crate::out::{Act, Out, Thrown, gives};
use mvm_base::Word;
use mvm_history::{Ask, Launch};

/// `Isolate.number`.
#[tactic(auto, unfolding(crate::specs::Isolates::isolate_number))]
pub fn isolate_number(env: &Env) -> Out
    requires { IsNumbered env.now.launch }
    ensures { result ≡ isolate_number (machine_of env.now) }
{
    gives(Word::Int(env.launch.number as i32))
}

/// The isolate of this number, where it is another one.
fn other_isolate(number: i32, launch: &Launch) -> Option<u32>
    ensures { result ≡ other_isolate number launch.now }
{
    if number < 0 {
        return None;
    }
    let number = number.cast_unsigned();
    if number == launch.number || launch.count <= number {
        return None;
    }
    Some(number)
}

/// `Isolate.start`.
#[tactic(auto, unfolding(crate::specs::Isolates::start_isolate))]
pub fn start_isolate(env: &Env, number: i32) -> Out
    ensures { result ≡ start_isolate number (machine_of env.now) }
{
    match other_isolate(number, &env.launch) {
        Some(number) => Out::Act(Act::Ask(Ask::Start(number))),
        None => Out::Throw(Thrown::IllegalArgumentException),
    }
}

/// `Isolate.halt`.
#[tactic(auto, unfolding(crate::specs::Isolates::halt_isolate))]
pub fn halt_isolate(env: &Env, number: i32, status: i32) -> Out
    ensures { result ≡ halt_isolate number status (machine_of env.now) }
{
    match other_isolate(number, &env.launch) {
        Some(number) => Out::Act(Act::Ask(Ask::Halt(number, status))),
        None => Out::Throw(Thrown::IllegalArgumentException),
    }
}
