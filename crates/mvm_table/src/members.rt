ghost use Rattle.std.specs.Prelude.{◌≡◌, ◌<◌, length, slice_get, ◌+◌, ◌≤◌, IfOk, IfSome, OnOk};
ghost use Rattle.std.specs.Option.{option_copied};
ghost use Rattle.mvm_base.specs.Answers.{AnswersUnless};
ghost use Rattle.mvm_set.specs.Members.{flags_of};
ghost use Rattle.mvm_table.specs.Loads.{class_in, IsLoaded};
ghost use Rattle.mvm_table.specs.Met.{of_holder, AreOnShelf};
ghost use Rattle.mvm_table.specs.Members.{may_access, allowed, holder_of, field_allowed, method_allowed, slot_in, field_told, field_resolved, found_as, method_told, method_resolved};

use crate::fault::LoadFault;
use crate::reference::Reference;
use crate::resolved::FieldAt;
use crate::slots::slot_of;
use crate::table::Table;
use mvm_base::{List, Name, Steps};
use mvm_classfile::Member;
use mvm_select::{find_interface_method, find_method};
use mvm_set::{Class, Found, LinkFault, MethodAt, Own, Shared, accessible, find_field, own_name};
use std::sync::ledger::Ledger;

/// The access flags of the member of a place.
fn flags_at(members: &List<Member>, index: u16) -> Option<u16>
    ensures { result ≡ flags_of (slice_get members.now index) }
{
    match members.get(usize::from(index)) {
        Some(member) => Some(member.flags),
        None => None,
    }
}

/// Whether a member of these flags, of the class of this name, may be accessed from a class (JVM Specification 5.4.4).
fn may_access(from: &Class, holder: Option<&Name>, flags: Option<u16>) -> bool
    ensures { result ≡ may_access from.now (option_copied holder.entry) flags }
{
    match holder {
        Some(holder) => match flags {
            Some(flags) => accessible(from, holder, flags),
            None => false,
        },
        None => false,
    }
}

fn allowed(may: bool) -> Result<(), LoadFault>
    ensures { result ≡ allowed may }
{
    if may {
        Ok(())
    } else {
        Err(LoadFault::Link(LinkFault::Access))
    }
}

/// The class that declares what was found.
fn holder_of(class: &Class, found: Found) -> Option<&Own>
    ensures { option_copied result ≡ holder_of class.now found }
{
    match class.walk().get(found.holder as usize) {
        Some(own) => Some(own.get()),
        None => None,
    }
}

fn field_allowed(from: &Class, index: u16, holder: Option<&Own>) -> Result<(), LoadFault>
    ensures { result ≡ field_allowed from.now index (option_copied holder.entry) }
{
    match holder {
        Some(holder) => {
            let file = holder.file();
            allowed(may_access(from, own_name(file), flags_at(&file.parts().fields, index)))
        }
        None => Err(LoadFault::Link(LinkFault::Access)),
    }
}

fn method_allowed(from: &Class, index: u16, holder: Option<&Own>) -> Result<(), LoadFault>
    ensures { result ≡ method_allowed from.now index (option_copied holder.entry) }
{
    match holder {
        Some(holder) => {
            let file = holder.file();
            allowed(may_access(from, own_name(file), flags_at(&file.parts().methods, index)))
        }
        None => Err(LoadFault::Link(LinkFault::Access)),
    }
}

/// The slot of what was found.
fn slot_in(class: &Class, index: u16, holder: Option<&Own>) -> Option<u32>
    ensures { IfSome result (λ slot. slot ≡ slot_in class.now index (option_copied holder.entry)) }
{
    match holder {
        Some(holder) => slot_of(class, holder, index),
        None => Some(0),
    }
}

/// The field that was found, where it may be accessed (JVM Specification 5.4.3.2).
#[tactic(auto, unfolding(crate::specs::Members::field_told))]
fn field_told(from: &Class, class: Shared<Class>, found: Found) -> Result<FieldAt, LoadFault>
    ensures answer { AnswersUnless LoadFault.OutOfMemory result (field_told from.now class found) }
    ensures same { IfOk result (λ at. at.class ≡ class) }
{
    let holder = holder_of(class.get(), found);
    field_allowed(from, found.index, holder)?;
    match slot_in(class.get(), found.index, holder) {
        Some(slot) => Ok(FieldAt { class, found, slot }),
        None => Err(LoadFault::OutOfMemory),
    }
}

/// The method that was found, where it may be accessed (JVM Specification 5.4.3.3).
#[tactic(auto, unfolding(crate::specs::Members::method_told))]
fn method_told(from: &Class, class: Shared<Class>, found: Found) -> Result<MethodAt, LoadFault>
    ensures exact { result ≡ method_told from.now class found }
    ensures same { IfOk result (λ at. at.class ≡ class) }
{
    method_allowed(from, found.index, holder_of(class.get(), found))?;
    Ok(MethodAt { class, found })
}

/// The method of an interface, or of a class, that a reference names, in a class.
fn found_as(of_interface: bool, class: &Class, reference: &Reference) -> Result<Found, LinkFault>
    ensures { result ≡ found_as of_interface class.now reference.now }
{
    if of_interface {
        find_interface_method(class, reference.name, reference.desc)
    } else {
        find_method(class, reference.name, reference.desc)
    }
}

impl Table {
    /// The method of a reference, as a class resolves it (JVM Specification 5.4.3.3, 5.4.3.4).
    #[tactic(auto, unfolding(crate::specs::Members::method_resolved))]
    pub(crate) fn method_from<L: Ledger>(
        &self,
        of_interface: bool,
        from: &Class,
        reference: &Reference,
        steps: &mut Steps<L>,
    ) -> Result<MethodAt, LoadFault>
        requires { from.now.set < length self.now.files }
        ensures answer { AnswersUnless LoadFault.OutOfMemory result (method_resolved (class_in self.now.files from.now.set) of_interface from.now reference.now) }
        ensures loaded { IfOk result (λ at. IsLoaded self.now.files at.class) }
        ensures shelf { AreOnShelf self.now from.now.set (of_holder reference.now.class) → OnOk result (steps.new ≤ steps.old + 2) }
    {
        let class = match self.holder_from(from, reference.class, steps) {
            Ok(class) => class,
            Err(fault) => return Err(fault),
        };
        match found_as(of_interface, class.get(), reference) {
            Ok(found) => method_told(from, class, found),
            Err(fault) => Err(LoadFault::Link(fault)),
        }
    }

    /// The field of a reference, as a class resolves it (JVM Specification 5.4.3.2).
    #[tactic(auto, unfolding(crate::specs::Members::field_resolved))]
    pub(crate) fn field_from<L: Ledger>(
        &self,
        from: &Class,
        reference: &Reference,
        steps: &mut Steps<L>,
    ) -> Result<FieldAt, LoadFault>
        requires { from.now.set < length self.now.files }
        ensures answer { AnswersUnless LoadFault.OutOfMemory result (field_resolved (class_in self.now.files from.now.set) from.now reference.now) }
        ensures loaded { IfOk result (λ at. IsLoaded self.now.files at.class) }
        ensures shelf { AreOnShelf self.now from.now.set (of_holder reference.now.class) → OnOk result (steps.new ≤ steps.old + 2) }
    {
        let class = match self.holder_from(from, reference.class, steps) {
            Ok(class) => class,
            Err(fault) => return Err(fault),
        };
        match find_field(class.get(), reference.name, reference.desc) {
            Ok(found) => field_told(from, class, found),
            Err(fault) => Err(LoadFault::Link(fault)),
        }
    }
}
