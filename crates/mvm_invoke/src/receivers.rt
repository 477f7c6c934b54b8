//! The receiver of a call, and the method that is selected in its class (JVM Specification 5.4.5, 6.5).

ghost use Rattle.std.specs.Prelude.{◌≡◌, ◌≤◌, length, Some, Result, Err, IfOk, IfErr, IsSome};
ghost use Rattle.mvm_base.specs.Answers.{AnswersUnless, Fails};
ghost use Rattle.mvm_isolate.specs.Numbered.{look_of, named};
ghost use Rattle.mvm_member.specs.Members.{method_named, MemberName as MemberNameOf};
ghost use Rattle.mvm_set.specs.declared.class.Lineage.{Lineage};
ghost use Rattle.mvm_invoke.specs.Calls.{on_instance, receiver_class, receiver_of, received_by, selected_in, virtual_selected};
ghost use Rattle.mvm_invoke.specs.Found.{HasMember};

use crate::passed::{Passed, passed_by};
use mvm_base::Name;
use mvm_current::receiver_in;
use mvm_frame::Stack;
use mvm_instance::{is_of_class, receiver_class};
use mvm_isolate::{Isolate, Stop};
use mvm_member::{MemberName, method_named};
use mvm_native::Thrown;
use mvm_select::select;
use mvm_set::{Class, Found, LinkFault, MethodAt, Shared};

/// What a call with a receiver passes.
#[derive(Debug, Drop)]
pub struct Received {
    /// The arguments, of which the first is the receiver.
    pub passes: Passed,
    /// The object of the receiver.
    pub receiver: u32,
}

/// Whether the receiver is an instance of a class.
///
/// # Errors
///
/// `thrown` where it is none.
fn on_instance(isolate: &Isolate, thrown: Thrown, class: &Name, object: u32) -> Result<(), Stop>
    ensures { result ≡ on_instance (look_of isolate.now) thrown class.now object (named isolate.now) }
{
    if is_of_class(isolate, class, object) {
        Ok(())
    } else {
        Err(Stop::Throw(thrown))
    }
}

/// What a call passes, with its receiver.
///
/// # Errors
///
/// A `NullPointerException`; `thrown` where the receiver is no instance of the class that declares the method.
#[tactic(auto, unfolding(crate::specs::Calls::receiver_of))]
fn receiver_of(
    isolate: &Isolate,
    thrown: Thrown,
    method: &MemberName<'_>,
    passes: Passed,
) -> Result<Received, Stop>
    ensures answer { result ≡ receiver_of (look_of isolate.now) thrown method.now passes (named isolate.now) }
    ensures passes { IfOk result (λ received. received.passes ≡ passes) }
{
    let receiver = receiver_in(passes.arguments.as_slice())?;
    on_instance(isolate, thrown, method.class(), receiver)?;
    Ok(Received { passes, receiver })
}

/// What a call of a method passes that is not static. It stays on the operands.
///
/// # Errors
///
/// Those of [`receiver_of`]; a `VerifyError` for what linked code has not.
#[tactic(auto, unfolding(crate::specs::Calls::received_by))]
pub(crate) fn received_by(
    isolate: &Isolate,
    stack: &Stack,
    thrown: Thrown,
    method: &MemberName<'_>,
) -> Result<Received, Stop>
    ensures answer { AnswersUnless Stop.OutOfMemory result (received_by (look_of isolate.now) thrown method.now stack.now.operands.slots (named isolate.now)) }
    ensures there { IfOk result (λ received. received.passes.slots ≤ length stack.now.operands.slots) }
{
    let passes = passed_by(isolate.alloc(), stack, false, method.desc())?;
    receiver_of(isolate, thrown, method, passes)
}

/// The same of a method that was found.
pub fn received_at(
    isolate: &Isolate,
    stack: &Stack,
    thrown: Thrown,
    method: &MethodAt,
) -> Result<Received, Stop>
    requires { IsSome (method_named method.now) }
    ensures answer { (member : MemberNameOf) → method_named method.now ≡ Some member → AnswersUnless Stop.OutOfMemory result (received_by (look_of isolate.now) thrown member stack.now.operands.slots (named isolate.now)) }
    ensures there { IfOk result (λ received. received.passes.slots ≤ length stack.now.operands.slots) }
{
    match method_named(method) {
        Some(member) => received_by(isolate, stack, thrown, &member),
        None => unreachable!(),
    }
}

/// One more owner of a class.
pub(crate) fn shared(class: &Shared<Class>) -> Result<Shared<Class>, Stop>
    ensures ok { IfOk result (λ same. same ≡ class.now) }
    ensures err { IfErr result (λ stop. stop ≡ Stop.OutOfMemory) }
{
    match class.share() {
        Ok(same) => Ok(same),
        Err(_) => Err(Stop::OutOfMemory),
    }
}

/// The class in which a method is selected for an object.
///
/// # Errors
///
/// A `VerifyError` where there is no such object.
#[tactic(auto, unfolding(crate::specs::Calls::receiver_class))]
pub(crate) fn class_of(isolate: &Isolate, object: u32) -> Result<Shared<Class>, Stop>
    ensures { AnswersUnless Stop.OutOfMemory result (receiver_class (look_of isolate.now) object (named isolate.now)) }
{
    let mirror = receiver_class(isolate, object)?;
    shared(isolate.class(mirror))
}

/// The method that was selected in a class.
///
/// # Errors
///
/// What is thrown where none was.
pub(crate) fn selected_in(
    class: Shared<Class>,
    found: Result<Found, LinkFault>,
) -> Result<MethodAt, Stop>
    ensures ok { IfOk result (λ method. HasMember method (selected_in class found)) }
    ensures err { IfErr result (λ stop. selected_in class found ≡ Err stop) }
{
    match found {
        Ok(found) => {
            let method = MethodAt { class, found };
            match method_named(&method) {
                Some(_) => Ok(method),
                None => Err(Stop::Throw(Thrown::VerifyError)),
            }
        }
        Err(fault) => Err(fault.into()),
    }
}

/// The method that is selected for a receiver, by the class of the receiver.
#[tactic(auto, unfolding(crate::specs::Calls::virtual_selected))]
pub fn virtual_selected(
    isolate: &Isolate,
    method: &MethodAt,
    receiver: u32,
) -> Result<MethodAt, Stop>
    ensures ok { IfOk result (λ selected. HasMember selected (virtual_selected (look_of isolate.now) method.now receiver (named isolate.now))) }
    ensures err { IfErr result (λ stop. Fails Stop.OutOfMemory stop (virtual_selected (look_of isolate.now) method.now receiver (named isolate.now))) }
{
    let class = class_of(isolate, receiver)?;
    let found = select(class.get(), method);
    selected_in(class, found)
}
