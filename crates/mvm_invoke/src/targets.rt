//! The method that a call names (JVM Specification 5.4.3.3, 5.4.3.4, 6.5).

ghost use Rattle.std.specs.Prelude.{◌≡◌, List, Some, Ok, Err, IsSome, IfOk, IfErr, OnOk};
ghost use Rattle.std.specs.Option.{option_copied};
ghost use Rattle.mvm_base.specs.Answers.{Fails};
ghost use Rattle.mvm_isolate.specs.Numbered.{look_of};
ghost use Rattle.mvm_member.specs.Members.{method_named, MemberName as MemberNameOf};
ghost use Rattle.mvm_select.specs.Names.{on_ok};
ghost use Rattle.mvm_set.specs.declared.class.Lineage.{Lineage};
ghost use Rattle.mvm_current.specs.Keys.{top_named, AreKeys, RunsMethod};
ghost use Rattle.mvm_invoke.specs.Calls.{a_method, call_target, class_of_reference, is_constructor, referred, suiting};
ghost use Rattle.mvm_layout.specs.Pool.{member};
ghost use Rattle.mvm_invoke.specs.Found.{HasTarget};

use mvm_base::{Name, Steps};
use mvm_current::entry_at;
use mvm_frame::Stack;
use mvm_isolate::{Isolate, Stop};
use mvm_layout::flags::is_static;
use mvm_layout::pool::{class_name, member, same_text};
use mvm_member::{MemberName, method_named};
use mvm_native::Thrown;
use mvm_set::{Class, MethodAt};
use mvm_table::{Resolved, Table};
use std::sync::ledger::Ledger;

/// The method that an entry stands for.
fn a_method(found: Resolved) -> Result<MethodAt, Stop>
    ensures ok { IfOk result (λ method. HasTarget method (a_method found)) }
    ensures err { IfErr result (λ stop. a_method found ≡ Err stop) }
{
    match found {
        Resolved::Method(method) => match method_named(&method) {
            Some(_) => Ok(method),
            None => Err(Stop::Throw(Thrown::VerifyError)),
        },
        _ => Err(Stop::Throw(Thrown::VerifyError)),
    }
}

/// The name of the class that the reference of an index of the constant pool of a class names.
fn class_of_reference(class: &Class, index: u16) -> Option<&Name>
    ensures { option_copied result ≡ class_of_reference class.now (member class.now.file.pool index) }
{
    let pool = &class.file().parts().pool;
    match member(pool, index) {
        Some((class, _)) => class_name(pool, class),
        None => None,
    }
}

/// The name of the class that the reference of an index of the constant pool of the current frame's class names.
///
/// # Errors
///
/// A `VerifyError` where there is none.
#[tactic(auto, using(crate::proofs::Referring::referred_at))]
pub(crate) fn referred<'a>(
    isolate: &'a Isolate,
    stack: &Stack,
    index: u16,
) -> Result<&'a Name, Stop>
    requires frame { IsSome stack.now.rest.below.key }
    requires method { RunsMethod stack.now }
    requires keys { AreKeys isolate.now stack.now }
    ensures { on_ok (λ name. name.now) result ≡ referred (look_of isolate.now) index (top_named isolate.now stack.now) }
{
    match stack.top() {
        Some(key) => match class_of_reference(isolate.class(key.mirror).get(), index) {
            Some(name) => Ok(name),
            None => Err(Stop::Throw(Thrown::VerifyError)),
        },
        None => unreachable!(),
    }
}

/// Whether a method is a constructor (JVM Specification 2.9).
pub(crate) fn is_constructor(method: &MemberName<'_>) -> bool
    ensures { result ≡ is_constructor method.now }
{
    same_text(method.name().units(), b"<init>")
}

/// Whether a method may be called by a reference to this class: a constructor is one of the class, and the method is static, or is not, as it is
/// wanted.
///
/// # Errors
///
/// A `NoSuchMethodError`, an `IncompatibleClassChangeError`.
fn may_call(method: &MethodAt, class: &Name, is_static_wanted: bool) -> Result<(), Stop>
    ensures ok { OnOk result ((member : MemberNameOf) → method_named method.now ≡ Some member → suiting is_static_wanted class.now (method.now, member) ≡ Ok (method.now, member)) }
    ensures err { IfErr result (λ stop. (member : MemberNameOf) → method_named method.now ≡ Some member → suiting is_static_wanted class.now (method.now, member) ≡ Err stop) }
{
    match method_named(method) {
        Some(member) => {
            if is_constructor(&member) && !member.class().same(class) {
                Err(Stop::Throw(Thrown::NoSuchMethodError))
            } else if is_static(member.flags()) == is_static_wanted {
                Ok(())
            } else {
                Err(Stop::Throw(Thrown::IncompatibleClassChangeError))
            }
        }
        None => Err(Stop::Throw(Thrown::VerifyError)),
    }
}

/// The method that a call names, which is static or is not.
///
/// # Errors
///
/// What is thrown for the first fault of the resolution; a `NoSuchMethodError`, an `IncompatibleClassChangeError`, or a `VerifyError` for what linked
/// code has not.
#[tactic(auto, unfolding(crate::specs::Calls::call_target))]
pub fn call_target<L: Ledger>(
    isolate: &Isolate,
    table: &Table,
    stack: &Stack,
    is_static_wanted: bool,
    index: u16,
    steps: &mut Steps<L>,
) -> Result<MethodAt, Stop>
    requires files { table.now.files ≡ isolate.now.files }
    requires frame { IsSome stack.now.rest.below.key }
    requires method { RunsMethod stack.now }
    requires keys { AreKeys isolate.now stack.now }
    // It has the names that the definition gives.
    ensures ok { IfOk result (λ method. HasTarget method (call_target (look_of isolate.now) is_static_wanted index (top_named isolate.now stack.now))) }
    ensures err { IfErr result (λ stop. Fails Stop.OutOfMemory stop (call_target (look_of isolate.now) is_static_wanted index (top_named isolate.now stack.now))) }
{
    let found = entry_at(isolate, table, stack, index, steps)?;
    let method = a_method(found)?;
    let class = referred(isolate, stack, index)?;
    may_call(&method, class, is_static_wanted)?;
    Ok(method)
}
