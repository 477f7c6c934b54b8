//! Whether a throw finds the words that it needs, before anything is done (JVM Specification 2.10, 5.5).

ghost use Rattle.std.specs.Prelude.{◌≡◌, IfSome, slice_get};
ghost use Rattle.std.specs.Option.{option_map};
ghost use Rattle.mvm_frame.specs.Calls.{place_of};
ghost use Rattle.mvm_frame.specs.Parts.{frames_of};
ghost use Rattle.mvm_current.specs.Keys.{frames_named, runs_of, AreKeys, IsKey};
ghost use Rattle.mvm_isolate.specs.Numbered.{look_of, type_of, IsType};
ghost use Rattle.mvm_throwing.specs.Unwinding.{unwinds, wraps, THROWABLE};

use crate::handlers::{handler_for, is_error};
use mvm_current::NO_METHOD;
use mvm_frame::{FrameKey, Place, Stack};
use mvm_heap::{ObjectKind, words_needed};
use mvm_isolate::{Isolate, TypeAt};
use mvm_native::Thrown;

/// The words of a throwable.
pub(crate) fn throwable_words() -> u64
    ensures { result ≡ THROWABLE }
{
    words_needed(ObjectKind::Object, 2)
}

/// What the frame of a place runs, and its pc: at 0 the current frame, at 1 its caller, and so on.
fn place_at(stack: &Stack, at: usize) -> Option<Place>
    ensures { result ≡ option_map place_of (slice_get (frames_of stack.now) at) }
{
    match stack.top() {
        Some(key) => {
            if at == 0 {
                Some(Place {
                    key,
                    pc: stack.pc(),
                })
            } else {
                stack.caller(at - 1)
            }
        }
        None => None,
    }
}

/// Whether a throw of an object of this type through the frame of a key makes an `ExceptionInInitializerError` (JVM Specification 5.5, step 11).
#[tactic(auto, using(crate::proofs::Handled::method_wraps, crate::proofs::Handled::other_wraps, crate::proofs::Handled::last_wraps))]
pub(crate) fn wraps(isolate: &Isolate, key: FrameKey, pc: u32, at: Option<TypeAt>) -> bool
    requires key { IsKey isolate.now key }
    requires typed { IfSome at (IsType isolate.now) }
    ensures { result ≡ wraps (look_of isolate.now) (runs_of isolate.now key pc) pc (option_map (type_of isolate.now) at) }
{
    if key.method != NO_METHOD {
        return false;
    }
    if pc != 2 {
        return false;
    }
    !is_error(isolate, at)
}

/// Whether a throw of an object of this type finds the words that it needs on its way, among so many.
pub(crate) fn suffice(isolate: &Isolate, stack: &Stack, words: u64, at: Option<TypeAt>) -> bool
    requires keys { AreKeys isolate.now stack.now }
    requires typed { IfSome at (IsType isolate.now) }
    ensures { result ≡ unwinds (look_of isolate.now) words (frames_named isolate.now stack.now) (option_map (type_of isolate.now) at) }
{
    let mut left = words;
    let mut at = at;
    for i in 0..stack.frames() {
        let Some(place) = place_at(stack, i) else {
            unreachable!()
        };
        match handler_for(isolate, place.key, place.pc, at) {
            Some(_) => return true,
            None => {}
        }
        if wraps(isolate, place.key, place.pc, at) {
            if left < throwable_words() {
                return false;
            }
            left -= throwable_words();
            at = Some(TypeAt::Class(isolate.thrown_class(Thrown::ExceptionInInitializerError)));
        }
    }
    true
}
