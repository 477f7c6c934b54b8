//! The method that the current frame runs, and its code (JVM Specification 2.6, 4.7.3).

ghost use Rattle.std.specs.Prelude.{◌≡◌, ◌≢◌, ◌<◌, ◌≤◌, ℕ, length, slice_get, Some, Ok, IsSome, IfOk, IfSome, IfNone};
ghost use Rattle.std.specs.Option.{option_copied};
ghost use Rattle.mvm_isolate.specs.Numbered.{class_at, look_of, name_at, IsClass};
ghost use Rattle.mvm_isolate.specs.Faults.{looked_up};
ghost use Rattle.mvm_select.specs.Names.{on_ok};
ghost use Rattle.mvm_set.specs.declared.class.Lineage.{Lineage};
ghost use Rattle.mvm_isolate.specs.Isolate.{stopped};
ghost use Rattle.mvm_isolate.specs.Members.{method_in};
ghost use Rattle.mvm_native.specs.declared.out.Thrown.TheVariants.{VerifyError};
ghost use Rattle.mvm_set.specs.Members.{method_at};
ghost use Rattle.mvm_current.specs.Frames.{method};
ghost use Rattle.mvm_current.specs.Code.{code_of, method_of, next_of};
ghost use Rattle.mvm_current.specs.Keys.{runs_of, top_named, AreKeys, IsKey};

use crate::key::NO_METHOD;
use mvm_base::Name;
use mvm_classfile::{Code, Member};
use mvm_frame::{FrameKey, Stack};
use mvm_insn::insn_at;
use mvm_isolate::{Isolate, Stop};
use mvm_member::method_place;
use mvm_native::Thrown;
use mvm_set::{Class, Shared};

/// The key of the current frame, where it runs a method.
pub(crate) fn method_key(stack: &Stack) -> Option<FrameKey>
    requires { IsSome stack.now.rest.below.key }
    ensures key { IfSome result (λ key. stack.now.rest.below.key ≡ Some key) }
    ensures method { IfSome result (λ key. key.method ≢ NO_METHOD) }
    ensures none { IfNone result (IfSome stack.now.rest.below.key (λ key. key.method ≡ NO_METHOD)) }
{
    match stack.top() {
        Some(key) => {
            if key.method == NO_METHOD {
                None
            } else {
                Some(key)
            }
        }
        None => unreachable!(),
    }
}

/// The method of a place among those that the class of a number declares.
pub(crate) fn declared_at(isolate: &Isolate, mirror: u32, place: u16) -> Option<&Member>
    requires { IsClass isolate.now mirror }
    ensures value { (class : Lineage) → class_at isolate.now mirror ≡ Some class → option_copied result ≡ slice_get class.file.methods place }
    // A look-up of the class gives the class of this number.
    ensures class { (class : Lineage) → class_at isolate.now mirror ≡ Some class → looked_up ((look_of isolate.now).class (name_at isolate.now mirror)) ≡ Ok class }
    ensures few { IfSome result (λ method. IfSome method.now.code (λ code. length code.bytes ≤ 65535)) }
{
    let class = isolate.class(mirror);
    class.get().file().parts().methods.get(usize::from(place))
}

/// The place of the method of this name and descriptor that a class declares: a number that is that of no other frame.
#[tactic(auto, using(mvm_set::proofs::Counted::few_methods))]
fn place_in(class: &Shared<Class>, name: &Name, desc: &Name) -> Option<u16>
    ensures value { result ≡ method_at name.now desc.now class.now.file }
    ensures there { IfSome result (λ place. place < length class.now.file.methods) }
    ensures method { IfSome result (λ place. place ≢ NO_METHOD) }
{
    let class = class.get();
    let _few = class.file().parts();
    method_place(class, name, desc)
}

/// The key of a frame that runs the method of this name and descriptor that the class of a number declares, whose call entered the monitor of
/// an object or none: `None` where it declares none.
pub fn key_of(
    isolate: &Isolate,
    mirror: u32,
    name: &Name,
    desc: &Name,
    lock: Option<u32>,
) -> Option<FrameKey>
    requires { IsClass isolate.now mirror }
    ensures key { IfSome result (IsKey isolate.now) }
    ensures method { IfSome result (λ key. key.method ≢ NO_METHOD) }
    ensures lock { IfSome result (λ key. key.lock ≡ lock) }
    ensures runs { IfSome result (λ key. (pc : ℕ) → runs_of isolate.now key pc ≡ method (name_at isolate.now mirror) name.now desc.now) }
    ensures none { IfNone result (method_in (look_of isolate.now) (name_at isolate.now mirror) name.now desc.now ≡ stopped VerifyError) }
{
    match place_in(isolate.class(mirror), name, desc) {
        Some(method) => Some(FrameKey {
            mirror,
            method,
            lock,
        }),
        None => None,
    }
}

/// The method that the current frame runs.
///
/// # Errors
///
/// A `VerifyError` where it runs none.
pub fn method_of<'a>(isolate: &'a Isolate, stack: &Stack) -> Result<&'a Member, Stop>
    requires frame { IsSome stack.now.rest.below.key }
    requires keys { AreKeys isolate.now stack.now }
    ensures exact { on_ok (λ method. method.now) result ≡ method_of (look_of isolate.now) (top_named isolate.now stack.now) }
    ensures few { IfOk result (λ method. IfSome method.now.code (λ code. length code.bytes ≤ 65535)) }
{
    match method_key(stack) {
        Some(key) => match declared_at(isolate, key.mirror, key.method) {
            Some(method) => Ok(method),
            None => unreachable!(),
        },
        None => Err(Stop::Throw(Thrown::VerifyError)),
    }
}

/// The code that the current frame runs.
///
/// # Errors
///
/// A `VerifyError` where it runs none.
#[tactic(auto, unfolding(crate::specs::Code::code_of))]
pub fn code_of<'a>(isolate: &'a Isolate, stack: &Stack) -> Result<&'a Code, Stop>
    requires frame { IsSome stack.now.rest.below.key }
    requires keys { AreKeys isolate.now stack.now }
    ensures exact { on_ok (λ code. code.now) result ≡ code_of (look_of isolate.now) (top_named isolate.now stack.now) }
    ensures few { IfOk result (λ code. length code.now.bytes ≤ 65535) }
{
    match method_of(isolate, stack) {
        Ok(method) => match &method.code {
            Some(code) => Ok(code),
            None => Err(Stop::Throw(Thrown::VerifyError)),
        },
        Err(stop) => Err(stop),
    }
}

/// The place behind the instruction at the pc of the current frame.
///
/// # Errors
///
/// A `VerifyError` where it runs no code, or no instruction stands there.
#[tactic(auto, unfolding(crate::specs::Code::next_of))]
pub fn next_of(isolate: &Isolate, stack: &Stack) -> Result<u32, Stop>
    requires frame { IsSome stack.now.rest.below.key }
    requires keys { AreKeys isolate.now stack.now }
    ensures { result ≡ next_of (look_of isolate.now) (top_named isolate.now stack.now) }
{
    match code_of(isolate, stack) {
        Ok(code) => match insn_at(code.bytes.as_slice(), stack.pc()) {
            Ok(at) => Ok(at.next),
            Err(_) => Err(Stop::Throw(Thrown::VerifyError)),
        },
        Err(stop) => Err(stop),
    }
}
