//! Calls of methods of interfaces (JVM Specification 6.5: invokeinterface).

ghost use Rattle.std.specs.Prelude.{◌≡◌, ◌<◌, ℕ, true, Some, IsSome, IfOk, IfSome, OnErr};
ghost use Rattle.mvm_frame.specs.declared.key.FrameKey.{FrameKey as FrameKeyOf};
ghost use Rattle.mvm_isolate.specs.Instances.{is_instance};
ghost use Rattle.mvm_isolate.specs.Isolate.{type_at};
ghost use Rattle.mvm_isolate.specs.Numbered.{look_of, name_at, named, IsClass};
ghost use Rattle.mvm_isolate.specs.Sound.{Grows};
ghost use Rattle.mvm_isolate.specs.Types.{of_class};
ghost use Rattle.mvm_member.specs.Members.{method_named as named_method, MemberName as MemberNameOf};
ghost use Rattle.mvm_current.specs.Keys.{AreKeys, IsStackOf, RunsMethod};
ghost use Rattle.mvm_object.specs.Coming.{point_of};
ghost use Rattle.mvm_object.specs.Going.{Context};
ghost use Rattle.mvm_invoke.specs.Calls.{invoke_interface};
ghost use Rattle.mvm_invoke.specs.Leaving.{IsAfter, IsTold, Leaves, MayBegin};
ghost use Rattle.mvm_calling.specs.KeptVirtual.{IsReceiver};
ghost use Rattle.mvm_calling.specs.KeptInterface.{AreInterfaceCalls, IsInterfaceCall, InterfaceSelects};

use crate::entering::known_called;
use crate::interface_keeping::keep_interface;
use crate::interface_table::InterfaceCalls;
use crate::virtual_call::VirtualCall;
use crate::virtual_calls::{class_number, receiver_number};
use mvm_base::Steps;
use mvm_frame::Stack;
use mvm_instance::is_of_class;
use mvm_invoke::{
    Caller, Left, Told, call_target, called_at, interface_selected, not_private, received_at,
};
use mvm_isolate::{Isolate, Stop};
use mvm_member::method_named;
use mvm_native::Thrown;
use mvm_set::MethodAt;
use mvm_table::Table;
use std::sync::ledger::Ledger;

/// The call that an index of the constant pool of the current frame's class names, if it is kept for the class of the receiver.
fn ready_interface<'a>(
    isolate: &Isolate,
    stack: &Stack,
    calls: &'a InterfaceCalls,
    index: u16,
) -> Option<&'a VirtualCall>
    requires calls { AreInterfaceCalls isolate.now calls.now }
    ensures kept { IfSome result (λ call. IsInterfaceCall isolate.now call.now) }
    ensures home { IfSome result (λ call. (key : FrameKeyOf) → stack.now.rest.below.key ≡ Some key → key.mirror ≡ call.now.call.home) }
    ensures index { IfSome result (λ call. call.now.call.index ≡ index) }
    ensures receiver { IfSome result (λ call. IsReceiver isolate.now stack.now.operands.slots call.now.call.slots call.now.receiver) }
{
    match stack.top() {
        Some(key) => match calls.call(key.mirror, index) {
            Some(call) => match receiver_number(isolate, stack, call.call.slots) {
                Some(receiver) => {
                    if receiver == call.receiver {
                        Some(call)
                    } else {
                        None
                    }
                }
                None => None,
            },
            None => None,
        },
        None => None,
    }
}

/// `invokeinterface` of a method that is known for the class of the receiver.
fn invoke_interface_selected(
    isolate: &Isolate,
    stack: &mut Stack,
    told: Told,
    call: &VirtualCall,
) -> Result<Left, Stop>
    requires frame { IsSome stack.old.rest.below.key }
    requires method { RunsMethod stack.old }
    requires keys { AreKeys isolate.now stack.old }
    requires limits { IsStackOf isolate.now.env.launch.limits stack.old }
    requires call { IsInterfaceCall isolate.now call.now }
    requires home { (key : FrameKeyOf) → stack.old.rest.below.key ≡ Some key → key.mirror ≡ call.now.call.home }
    requires receiver { IsReceiver isolate.now stack.old.operands.slots call.now.call.slots call.now.receiver }
    ensures does { (c : Context) (next : ℕ) → IsTold c isolate.now told → Leaves result (invoke_interface c call.now.call.index next (point_of isolate.now stack.old)) isolate.now stack.new }
    ensures keys { AreKeys isolate.now stack.new }
    ensures limits { IsStackOf isolate.now.env.launch.limits stack.new }
    ensures after { IfOk result (λ left. IsAfter isolate.now left.after) }
    ensures begins { IfOk result (λ left. MayBegin told.threads isolate.now.env.launch.limits.threads left.after) }
    ensures stack { OnErr result (stack.new ≡ stack.old) }
{
    match stack.top() {
        Some(_) => known_called(isolate, stack, told, &call.call),
        None => unreachable!(),
    }
}

/// Keeps what is looked up of the calls of the method that an index of the constant pool of the current frame's class names, for the class of a
/// receiver.
#[tactic(auto, using(mvm_isolate::proofs::Keeping::grows_same))]
fn keep_interface_selected<L: Ledger>(
    isolate: &mut Isolate,
    table: &Table,
    stack: &Stack,
    calls: &mut InterfaceCalls,
    index: u16,
    method: &MethodAt,
    selected: &MethodAt,
    object: u32,
    steps: &mut Steps<L>,
)
    requires files { table.now.files ≡ isolate.old.files }
    requires keys { AreKeys isolate.old stack.now }
    requires calls { AreInterfaceCalls isolate.old calls.old }
    requires selects { (key : FrameKeyOf) (mirror : ℕ) (resolved member : MemberNameOf) → stack.now.rest.below.key ≡ Some key → named_method method.now ≡ Some resolved → named_method selected.now ≡ Some member → type_at (named isolate.old) object ≡ Some (of_class (name_at isolate.old mirror)) → is_instance (look_of isolate.old) (of_class resolved.class) (named isolate.old) object ≡ true → InterfaceSelects isolate.old key.mirror index mirror resolved member }
    ensures calls { AreInterfaceCalls isolate.new calls.new }
    // By names nothing changes.
    ensures same { named isolate.new ≡ named isolate.old }
    ensures links { isolate.new.env.links ≡ isolate.old.env.links }
    ensures grows { Grows isolate.old isolate.new }
{
    match (stack.top(), class_number(isolate, object)) {
        (Some(key), Some(receiver)) => match (method_named(method), method_named(selected)) {
            (Some(resolved), Some(member)) => {
                let home = key.mirror;
                if is_of_class(isolate, resolved.class(), object) {
                    keep_interface(
                        isolate, table, calls, home, index, receiver, &resolved, &member, steps,
                    );
                }
            }
            _ => {}
        },
        _ => {}
    }
}

/// `invokeinterface` of a method that is looked up by names, and kept.
#[tactic(auto, unfolding(mvm_invoke::specs::Calls::invoke_interface), using(mvm_invoke::proofs::Telling::told_grows, mvm_invoke::proofs::Telling::limits_grow, mvm_isolate::proofs::Keeping::grows_same))]
fn invoke_interface_anew<L: Ledger>(
    isolate: &mut Isolate,
    table: &Table,
    stack: &mut Stack,
    calls: &mut InterfaceCalls,
    caller: Caller,
    index: u16,
    steps: &mut Steps<L>,
) -> Result<Left, Stop>
    requires files { table.now.files ≡ isolate.old.files }
    requires frame { IsSome stack.old.rest.below.key }
    requires method { RunsMethod stack.old }
    requires keys { AreKeys isolate.old stack.old }
    requires limits { IsStackOf isolate.old.env.launch.limits stack.old }
    requires thread { caller.told.thread < 64 }
    requires calls { AreInterfaceCalls isolate.old calls.old }
    ensures does { (c : Context) → IsTold c isolate.old caller.told → Leaves result (invoke_interface c index caller.next (point_of isolate.old stack.old)) isolate.new stack.new }
    ensures grows { Grows isolate.old isolate.new }
    ensures links { isolate.new.env.links ≡ isolate.old.env.links }
    ensures keys { AreKeys isolate.new stack.new }
    ensures limits { IsStackOf isolate.new.env.launch.limits stack.new }
    ensures after { IfOk result (λ left. IsAfter isolate.new left.after) }
    ensures begins { IfOk result (λ left. MayBegin caller.told.threads isolate.new.env.launch.limits.threads left.after) }
    ensures calls { AreInterfaceCalls isolate.new calls.new }
    ensures err { OnErr result (named isolate.new ≡ named isolate.old) }
    ensures stack { OnErr result (stack.new ≡ stack.old) }
{
    let method = call_target(isolate, table, stack, false, index, steps)?;
    not_private(&method)?;
    let thrown = Thrown::IncompatibleClassChangeError;
    let received = received_at(isolate, stack, thrown, &method)?;
    let selected = interface_selected(isolate, &method, received.receiver)?;
    let object = received.receiver;
    keep_interface_selected(
        isolate, table, stack, calls, index, &method, &selected, object, steps,
    );
    let passed = &received.passes;
    called_at(isolate, table, stack, caller, &selected, passed, steps)
}

/// `invokeinterface`. What may fail comes before anything changes.
///
/// # Errors
///
/// What is thrown for the first fault of the resolution, where no method is selected, or by a native method; a `NullPointerException`, an
/// `IncompatibleClassChangeError`, an `UnsatisfiedLinkError`, a `StackOverflowError`, an `OutOfMemoryError`, or a `VerifyError` for what linked code has
/// not.
#[tactic(auto, using(mvm_isolate::proofs::Keeping::grows_same))]
pub fn invoke_interface<L: Ledger>(
    isolate: &mut Isolate,
    table: &Table,
    stack: &mut Stack,
    calls: &mut InterfaceCalls,
    told: Told,
    index: u16,
    next: u32,
    steps: &mut Steps<L>,
) -> Result<Left, Stop>
    requires files { table.now.files ≡ isolate.old.files }
    requires frame { IsSome stack.old.rest.below.key }
    requires method { RunsMethod stack.old }
    requires keys { AreKeys isolate.old stack.old }
    requires limits { IsStackOf isolate.old.env.launch.limits stack.old }
    requires thread { told.thread < 64 }
    requires calls { AreInterfaceCalls isolate.old calls.old }
    ensures does { (c : Context) → IsTold c isolate.old told → Leaves result (invoke_interface c index next (point_of isolate.old stack.old)) isolate.new stack.new }
    ensures grows { Grows isolate.old isolate.new }
    ensures links { isolate.new.env.links ≡ isolate.old.env.links }
    ensures keys { AreKeys isolate.new stack.new }
    ensures limits { IsStackOf isolate.new.env.launch.limits stack.new }
    ensures after { IfOk result (λ left. IsAfter isolate.new left.after) }
    ensures begins { IfOk result (λ left. MayBegin told.threads isolate.new.env.launch.limits.threads left.after) }
    ensures calls { AreInterfaceCalls isolate.new calls.new }
    ensures err { OnErr result (named isolate.new ≡ named isolate.old) }
    ensures stack { OnErr result (stack.new ≡ stack.old) }
{
    match ready_interface(isolate, stack, calls, index) {
        Some(call) => invoke_interface_selected(isolate, stack, told, call),
        None => {
            let caller = Caller { told, next };
            invoke_interface_anew(isolate, table, stack, calls, caller, index, steps)
        }
    }
}
