ghost use Rattle.std.specs.Prelude.{◌≡◌, IfOk};
ghost use Rattle.std.specs.List.{find};
ghost use Rattle.std.specs.Option.{option_copied};
ghost use Rattle.mvm_set.specs.Members.{flags_at};
ghost use Rattle.mvm_set.specs.declared.own.OwnWalk.{OwnWalk as OwnWalkOf};
ghost use Rattle.mvm_select.specs.Methods.{is_there};
ghost use Rattle.mvm_select.specs.Names.{on_ok};
ghost use Rattle.mvm_select.specs.MostSpecific.{declares};
ghost use Rattle.mvm_select.specs.Resolution.{of_superinterfaces, resolved, is_of_interface, interface_resolved};
ghost use Rattle.mvm_select.specs.Told.{IsPlace, method_found, interface_method_found};

use crate::methods::{is_instance, is_public, is_there};
use crate::most_specific::{declares, ruled, supers};
use crate::told::told;
use mvm_base::Name;
use mvm_set::{Class, Found, LinkFault, Own, Shared, is_interface};

/// The nearest class of a line with a method of this name and descriptor.
fn nearest<'a>(name: &Name, desc: &Name, line: &'a [Shared<Own>]) -> Option<&'a Own>
    ensures { option_copied result ≡ find (λ own. is_there (flags_at name.now desc.now own.file)) line.now }
{
    for own in line {
        let own = own.get();
        if is_there(own.flags_at(name, desc)) {
            return Some(own);
        }
    }
    None
}

/// Whether the method is an interface's own, or a public instance method of `java/lang/Object`, which stands above it.
fn is_of_interface(name: &Name, desc: &Name, own: &Own) -> bool
    ensures { result ≡ is_of_interface (flags_at name.now desc.now) own.now }
{
    let flags = own.flags_at(name, desc);
    is_there(flags) && (is_interface(own.file()) || (is_public(flags) && is_instance(flags)))
}

/// The nearest of them in the line of an interface.
fn nearest_of_interface<'a>(name: &Name, desc: &Name, line: &'a [Shared<Own>]) -> Option<&'a Own>
    ensures { option_copied result ≡ find (is_of_interface (flags_at name.now desc.now)) line.now }
{
    for own in line {
        let own = own.get();
        if is_of_interface(name, desc, own) {
            return Some(own);
        }
    }
    None
}

/// The first of these that is an interface with such a method, neither private nor static.
fn first_declared<'a>(name: &Name, desc: &Name, supers: &'a [Shared<Own>]) -> Option<&'a Own>
    ensures { option_copied result ≡ find (λ own. declares (flags_at name.now desc.now) own.file) supers.now }
{
    for own in supers {
        let own = own.get();
        if declares(name, desc, own) {
            return Some(own);
        }
    }
    None
}

/// What the rule of one takes, else the first in walk order that declares it.
#[tactic(auto, unfolding(crate::specs::Resolution::of_superinterfaces))]
fn of_superinterfaces<'a>(
    name: &Name,
    desc: &Name,
    walk: &'a [Shared<Own>],
) -> Result<&'a Own, LinkFault>
    ensures { on_ok (λ own. own.now.file) result ≡ of_superinterfaces (flags_at name.now desc.now) walk.now }
{
    match ruled(name, desc, walk) {
        Ok(own) => Ok(own),
        Err(_) => match first_declared(name, desc, supers(walk)) {
            Some(own) => Ok(own),
            None => Err(LinkFault::NoMethod),
        },
    }
}

#[tactic(auto, unfolding(crate::specs::Resolution::resolved))]
fn resolved<'a>(name: &Name, desc: &Name, class: &'a Class) -> Result<&'a Own, LinkFault>
    ensures { on_ok (λ own. own.now.file) result ≡ resolved (flags_at name.now desc.now) class.now }
{
    if is_interface(class.file()) {
        return Err(LinkFault::Change);
    }
    match nearest(name, desc, class.line()) {
        Some(own) => Ok(own),
        None => of_superinterfaces(name, desc, class.walk()),
    }
}

#[tactic(auto, unfolding(crate::specs::Resolution::interface_resolved))]
fn interface_resolved<'a>(name: &Name, desc: &Name, class: &'a Class) -> Result<&'a Own, LinkFault>
    ensures { on_ok (λ own. own.now.file) result ≡ interface_resolved (flags_at name.now desc.now) class.now }
{
    if !is_interface(class.file()) {
        return Err(LinkFault::Change);
    }
    match nearest_of_interface(name, desc, class.line()) {
        Some(own) => Ok(own),
        None => of_superinterfaces(name, desc, class.walk()),
    }
}

/// The method of this name and descriptor of a class (JVM Specification 5.4.3.3): the class's own, or that of its nearest superclass
/// that has one; else the one of the most specific methods of its superinterfaces that is not abstract; else the first, in walk order,
/// that a superinterface declares and that is neither private nor static. It takes no memory, and does not ask whether the method is
/// accessible.
///
/// # Errors
///
/// `Change` where the class is an interface, `NoMethod` where there is none.
#[tactic(auto, unfolding(crate::specs::Told::method_found))]
pub fn find_method(class: &Class, name: &Name, desc: &Name) -> Result<Found, LinkFault>
    ensures exact { result ≡ method_found name.now desc.now class.now }
    // A method stands there.
    ensures places { IfOk result (λ found. IsPlace class.now.walk found) }
{
    let own = resolved(name, desc, class)?;
    told(LinkFault::NoMethod, name, desc, class.walk(), own)
}

/// The method of this name and descriptor of an interface (JVM Specification 5.4.3.4): the interface's own; else a public instance
/// method of `java/lang/Object`; else as [`find_method`] takes one of its superinterfaces. It takes no memory, and does not ask whether
/// the method is accessible.
///
/// # Errors
///
/// `Change` where the class is no interface, `NoMethod` where there is none.
#[tactic(auto, unfolding(crate::specs::Told::interface_method_found))]
pub fn find_interface_method(class: &Class, name: &Name, desc: &Name) -> Result<Found, LinkFault>
    ensures exact { result ≡ interface_method_found name.now desc.now class.now }
    // A method stands there.
    ensures places { IfOk result (λ found. IsPlace class.now.walk found) }
{
    let own = interface_resolved(name, desc, class)?;
    told(LinkFault::NoMethod, name, desc, class.walk(), own)
}
