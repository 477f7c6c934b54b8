//! The short way of a call whose method is known.

ghost use Rattle.std.specs.Prelude.{◌≡◌, ◌≢◌, ◌<◌, ℕ, max, None, IsSome, IfOk, OnErr};
ghost use Rattle.mvm_member.specs.Members.{MemberName as MemberNameOf};
ghost use Rattle.mvm_isolate.specs.Numbered.{Numbered};
ghost use Rattle.mvm_current.specs.Arguments.{widths};
ghost use Rattle.mvm_current.specs.Frames.{method};
ghost use Rattle.mvm_current.specs.Keys.{runs_of, AreKeys, IsKey, IsStackOf};
ghost use Rattle.mvm_object.specs.Coming.{point_of};
ghost use Rattle.mvm_object.specs.Going.{Context};
ghost use Rattle.mvm_invoke.specs.Leaving.{IsAfter, IsTold, Leaves, MayBegin};
ghost use Rattle.mvm_calling.specs.KeptCalls.{known_called};

use crate::arguments::arguments_there;
use crate::static_call::StaticCall;
use mvm_current::{NO_METHOD, frames_law, room};
use mvm_frame::Stack;
use mvm_invoke::{Left, Told, framed};
use mvm_isolate::{Isolate, Stop};
use mvm_native::Thrown;

/// How many local variables a frame has: as many as its arguments take at least.
fn wider(locals: u16, slots: u16) -> u16
    ensures { result ≡ max locals slots }
{
    locals.max(slots)
}

/// The frame of a method that is known stands on the caller, with its arguments. What may fail comes before anything changes.
///
/// # Errors
///
/// A `VerifyError` where the arguments are not there, a `StackOverflowError`.
#[tactic(auto, unfolding(crate::specs::KeptCalls::known_called))]
pub(crate) fn known_called(
    isolate: &Isolate,
    stack: &mut Stack,
    told: Told,
    call: &StaticCall,
) -> Result<Left, Stop>
    requires frame { IsSome stack.old.rest.below.key }
    requires keys { AreKeys isolate.now stack.old }
    requires limits { IsStackOf isolate.now.env.launch.limits stack.old }
    requires key { IsKey isolate.now call.now.key }
    requires method { call.now.key.method ≢ NO_METHOD }
    requires unlocked { call.now.key.lock ≡ None }
    requires slots { widths call.now.kinds ≡ call.now.slots }
    ensures does { (c : Context) (m : MemberNameOf) → IsTold c isolate.now told → runs_of isolate.now call.now.key 0 ≡ method m.class m.name m.desc → Leaves result (known_called c m call.now.size call.now.kinds (point_of isolate.now stack.old)) isolate.now stack.new }
    ensures keys { AreKeys isolate.now stack.new }
    ensures limits { IsStackOf isolate.now.env.launch.limits stack.new }
    ensures after { IfOk result (λ left. IsAfter isolate.now left.after) }
    ensures begins { IfOk result (λ left. MayBegin told.threads isolate.now.env.launch.limits.threads left.after) }
    ensures stack { OnErr result (stack.new ≡ stack.old) }
{
    frames_law();
    match arguments_there(stack, call.kinds.as_slice(), call.slots) {
        Ok(()) => {
            let locals = wider(call.size.locals, call.slots);
            if !room(stack, locals, call.size.depth) {
                return Err(Stop::Throw(Thrown::StackOverflowError));
            }
            Ok(framed(stack, told, call.key, call.size, call.slots))
        }
        Err(stop) => Err(stop),
    }
}
