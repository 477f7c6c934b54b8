//! The frame that waits for the current one, to which a return goes (JVM Specification 2.6.4).

ghost use Rattle.std.specs.Prelude.{◌≡◌, ◌≢◌, ◌≤◌, ◌-◌, length, slice_get, Ok, Some, IfOk, IfSome, IsSome, OnOk};
ghost use Rattle.std.specs.Option.{option_copied, option_map};
ghost use Rattle.mvm_frame.specs.Calls.{room_of};
ghost use Rattle.mvm_frame.specs.Parts.{stack_with};
ghost use Rattle.mvm_history.specs.declared.limits.Limits.{Limits as LimitsOf};
ghost use Rattle.mvm_isolate.specs.Faults.{looked_up};
ghost use Rattle.mvm_isolate.specs.Numbered.{class_at, look_of, name_at, IsClass, Numbered};
ghost use Rattle.mvm_set.specs.declared.class.Lineage.{Lineage};
ghost use Rattle.mvm_current.specs.Code.{method_for};
ghost use Rattle.mvm_current.specs.Keys.{callers_named, frames_named, runs_of, top_named, AreKeys, IsKey, IsStackOf, RunsMethod};
ghost use Rattle.mvm_current.specs.Values.{kind_of, width};
ghost use Rattle.mvm_locking.specs.Returned.{AwaitsMethod, HasRoom};
ghost use Rattle.mvm_locking.specs.Returns.{may_return_to, moved_on, next_at, next_below, returned_to, with_result};

use mvm_base::{Kind, Word};
use mvm_classfile::Member;
use mvm_current::{NO_METHOD, set_place};
use mvm_frame::{Place, Stack};
use mvm_insn::insn_at;
use mvm_isolate::{Isolate, Stop};
use mvm_native::Thrown;

/// The method of a place among those that the class of a number declares.
fn declared_at(isolate: &Isolate, mirror: u32, place: u16) -> Option<&Member>
    requires { IsClass isolate.now mirror }
    ensures value { (class : Lineage) → class_at isolate.now mirror ≡ Some class → option_copied result ≡ slice_get class.file.methods place }
    // A look-up of the class gives the class of this number.
    ensures class { (class : Lineage) → class_at isolate.now mirror ≡ Some class → looked_up ((look_of isolate.now).class (name_at isolate.now mirror)) ≡ Ok class }
    ensures few { IfSome result (λ method. IfSome method.now.code (λ code. length code.bytes ≤ 65535)) }
{
    let class = isolate.class(mirror);
    class.get().file().parts().methods.get(usize::from(place))
}

/// The method that a frame runs of this key and pc.
fn method_at(isolate: &Isolate, place: Place) -> &Member
    requires key { IsKey isolate.now place.key }
    requires method { place.key.method ≢ NO_METHOD }
    ensures is { method_for (look_of isolate.now) (runs_of isolate.now place.key place.pc) ≡ Ok result.now }
    ensures few { IfSome result.now.code (λ code. length code.bytes ≤ 65535) }
{
    match declared_at(isolate, place.key.mirror, place.key.method) {
        Some(method) => method,
        None => unreachable!(),
    }
}

/// The place behind the call of a frame that waits and runs a method.
///
/// # Errors
///
/// A `VerifyError` where no instruction stands there.
fn behind_call(isolate: &Isolate, place: Place) -> Result<u32, Stop>
    requires key { IsKey isolate.now place.key }
    requires method { place.key.method ≢ NO_METHOD }
    ensures { result ≡ next_at (look_of isolate.now) (runs_of isolate.now place.key place.pc) place.pc }
{
    match &method_at(isolate, place).code {
        Some(code) => match insn_at(code.bytes.as_slice(), place.pc) {
            Ok(at) => Ok(at.next),
            Err(_) => Err(Stop::Throw(Thrown::VerifyError)),
        },
        None => Err(Stop::Throw(Thrown::VerifyError)),
    }
}

/// The place behind the call of the frame that waits for the current one, where that runs a method.
///
/// # Errors
///
/// A `VerifyError` where no instruction stands at its call.
pub(crate) fn next_below(isolate: &Isolate, stack: &Stack) -> Result<Option<u32>, Stop>
    requires keys { AreKeys isolate.now stack.now }
    ensures is { result ≡ next_below (look_of isolate.now) (callers_named isolate.now stack.now) }
    ensures method { IfOk result (λ next. IfSome next (λ place. AwaitsMethod stack.now.rest.below.callers)) }
{
    match stack.caller(0) {
        Some(place) => {
            if place.key.method == NO_METHOD {
                return Ok(None);
            }
            match behind_call(isolate, place) {
                Ok(next) => Ok(Some(next)),
                Err(stop) => Err(stop),
            }
        }
        None => Ok(None),
    }
}

/// How many slots a value of a kind takes (JVM Specification 2.6.2).
fn width(kind: Kind) -> usize
    ensures { result ≡ width kind }
{
    match kind {
        Kind::Long => 2,
        Kind::Int | Kind::Ref => 1,
    }
}

/// Whether a result fits on the operands of the frame that waits for the current one; where none waits, there is nothing to ask.
///
/// # Errors
///
/// A `VerifyError` where it does not.
pub(crate) fn may_return_to(stack: &Stack, kind: Option<Kind>) -> Result<(), Stop>
    ensures is { (n : Numbered) → result ≡ may_return_to kind (callers_named n stack.now) }
    ensures room { OnOk result (HasRoom kind (room_of stack.now.rest.below.callers)) }
{
    match stack.waiting_room() {
        Some(room) => match kind {
            Some(kind) => {
                if width(kind) <= room {
                    Ok(())
                } else {
                    Err(Stop::Throw(Thrown::VerifyError))
                }
            }
            None => Ok(()),
        },
        None => Ok(()),
    }
}

/// The current frame is taken off, and the one that waits for it is the current one.
fn left(stack: &mut Stack)
    requires { IsSome stack.old.rest.below.key }
    ensures { stack.new ≡ stack_with stack.old.rest.below.callers stack.old.rest.below.most stack.old.rest.below.words }
{
    match stack.leave() {
        Some(_) => {}
        None => unreachable!(),
    }
}

/// The result of a call, if it has one, is put on the operands of the current frame, where it fits.
fn put_result(stack: &mut Stack, value: Option<Word>)
    requires frame { IsSome stack.old.rest.below.key }
    requires room { IfSome value (λ word. width (kind_of word) ≤ stack.old.operands.depth - length stack.old.operands.slots) }
    ensures does { (n : Numbered) → with_result value (top_named n stack.old) ≡ Ok (top_named n stack.new) }
    ensures rest { stack.new.rest ≡ stack.old.rest }
{
    if let Some(word) = value {
        match stack.push(word) {
            Ok(()) => {}
            Err(_) => unreachable!(),
        }
    }
}

/// The current frame goes on at this place, if there is one: then it runs a method.
fn move_on(stack: &mut Stack, next: Option<u32>)
    requires frame { IsSome stack.old.rest.below.key }
    requires method { IfSome next (λ place. RunsMethod stack.old) }
    ensures does { (n : Numbered) → top_named n stack.new ≡ moved_on next (top_named n stack.old) }
    ensures below { stack.new.rest.below ≡ stack.old.rest.below }
{
    if let Some(place) = next {
        set_place(stack, place);
    }
}

/// The current frame is left, and the one that waits for it goes on with the result, which fits.
pub(crate) fn returned(stack: &mut Stack, value: Option<Word>, next: Option<u32>)
    requires frame { IsSome stack.old.rest.below.key }
    requires room { HasRoom (option_map kind_of value) (room_of stack.old.rest.below.callers) }
    requires method { IfSome next (λ place. AwaitsMethod stack.old.rest.below.callers) }
    ensures does { (n : Numbered) → returned_to value next (callers_named n stack.old) ≡ Ok (frames_named n stack.new) }
    ensures keys { (n : Numbered) → AreKeys n stack.old → AreKeys n stack.new }
    ensures limits { (limits : LimitsOf) → IsStackOf limits stack.old → IsStackOf limits stack.new }
{
    left(stack);
    if stack.top().is_some() {
        put_result(stack, value);
        move_on(stack, next);
    }
}
