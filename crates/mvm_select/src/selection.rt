ghost use Rattle.std.specs.Prelude.{◌≡◌, IfOk};
ghost use Rattle.std.specs.List.{find};
ghost use Rattle.std.specs.Option.{option_copied};
ghost use Rattle.mvm_set.specs.Members.{flags_at};
ghost use Rattle.mvm_select.specs.Methods.{is_instance};
ghost use Rattle.mvm_select.specs.Names.{on_ok};
ghost use Rattle.mvm_select.specs.Selection.{or_ruled, nearest_not_private, nearest_through, nearest_that_may, nearest_direct, nearest_overriding, selected, interface_selected, is_of_start, selected_from};
ghost use Rattle.mvm_select.specs.Told.{IsPlace, virtual_selection, interface_selection, special_selection};

use crate::methods::{is_abstract, is_instance, is_not_private, is_public, is_public_or_protected};
use crate::most_specific::ruled;
use crate::names::has_class;
use crate::overriding::{may_override, overrides_through};
use crate::told::{named, told};
use mvm_base::Name;
use mvm_set::{Class, Found, LinkFault, MethodAt, Own, Shared, is_interface, is_same};

/// The nearest class of a line with an instance method of this name and descriptor.
fn nearest_instance<'a>(name: &Name, desc: &Name, line: &'a [Shared<Own>]) -> Option<&'a Own>
    ensures { option_copied result ≡ find (λ own. is_instance (flags_at name.now desc.now own.file)) line.now }
{
    for own in line {
        let own = own.get();
        if is_instance(own.flags_at(name, desc)) {
            return Some(own);
        }
    }
    None
}

/// The nearest whose instance method is not private.
fn nearest_not_private<'a>(name: &Name, desc: &Name, line: &'a [Shared<Own>]) -> Option<&'a Own>
    ensures { option_copied result ≡ nearest_not_private (flags_at name.now desc.now) line.now }
{
    for own in line {
        let own = own.get();
        let flags = own.flags_at(name, desc);
        if is_instance(flags) && is_not_private(flags) {
            return Some(own);
        }
    }
    None
}

/// The nearest whose instance method is the base's or may override it.
fn nearest_that_may<'a>(
    name: &Name,
    desc: &Name,
    base: &Own,
    line: &'a [Shared<Own>],
) -> Option<&'a Own>
    ensures { option_copied result ≡ nearest_that_may (flags_at name.now desc.now) base.now.file line.now }
{
    for own in line {
        let own = own.get();
        if is_instance(own.flags_at(name, desc))
            && (is_same(own.file(), base.file()) || may_override(name, desc, own, base))
        {
            return Some(own);
        }
    }
    None
}

/// The nearest whose instance method is not private, where it overrides that of the base through a third. No third is needed where the
/// base's is public or protected.
#[tactic(auto, unfolding(crate::specs::Selection::nearest_through))]
fn nearest_through<'a>(name: &Name, desc: &Name, base: &Own, class: &'a Class) -> Option<&'a Own>
    ensures { option_copied result ≡ nearest_through (flags_at name.now desc.now) base.now.file class.now }
{
    if is_public_or_protected(base.flags_at(name, desc)) {
        return None;
    }
    match nearest_not_private(name, desc, class.line()) {
        Some(own) => {
            if overrides_through(name, desc, class.walk(), own, base) {
                Some(own)
            } else {
                None
            }
        }
        None => None,
    }
}

/// The nearest whose instance method is the base's or overrides it directly.
#[tactic(auto, unfolding(crate::specs::Selection::nearest_direct))]
fn nearest_direct<'a>(name: &Name, desc: &Name, base: &Own, class: &'a Class) -> Option<&'a Own>
    ensures { option_copied result ≡ nearest_direct (flags_at name.now desc.now) base.now.file class.now }
{
    match nearest_that_may(name, desc, base, class.line()) {
        Some(own) => {
            if has_class(own.walk(), base.file()) {
                Some(own)
            } else {
                None
            }
        }
        None => None,
    }
}

/// The nearest class, from a class upward, whose instance method overrides that of the base (JVM Specification 5.4.5).
#[tactic(auto, unfolding(crate::specs::Selection::nearest_overriding))]
fn nearest_overriding<'a>(name: &Name, desc: &Name, base: &Own, class: &'a Class) -> Option<&'a Own>
    ensures { option_copied result ≡ nearest_overriding (flags_at name.now desc.now) base.now.file class.now }
{
    match nearest_through(name, desc, base, class) {
        Some(own) => Some(own),
        None => nearest_direct(name, desc, base, class),
    }
}

/// What was found in a class and its superclasses, unless it is abstract; else by the rule of one.
fn or_ruled<'a>(
    name: &Name,
    desc: &Name,
    walk: &'a [Shared<Own>],
    found: Option<&'a Own>,
) -> Result<&'a Own, LinkFault>
    ensures { on_ok (λ own. own.now.file) result ≡ or_ruled (flags_at name.now desc.now) walk.now (option_copied found.entry) }
{
    match found {
        Some(own) => {
            if is_abstract(own.flags_at(name, desc)) {
                Err(LinkFault::Abstract)
            } else {
                Ok(own)
            }
        }
        None => ruled(name, desc, walk),
    }
}

/// What `invokevirtual` selects.
#[tactic(auto, unfolding(crate::specs::Selection::selected))]
fn selected<'a>(
    name: &Name,
    desc: &Name,
    base: &Own,
    class: &'a Class,
) -> Result<&'a Own, LinkFault>
    ensures { on_ok (λ own. own.now.file) result ≡ selected (flags_at name.now desc.now) base.now.file class.now }
{
    or_ruled(
        name,
        desc,
        class.walk(),
        nearest_overriding(name, desc, base, class),
    )
}

/// What `invokeinterface` selects.
#[tactic(auto, unfolding(crate::specs::Selection::interface_selected))]
fn interface_selected<'a>(name: &Name, desc: &Name, class: &'a Class) -> Result<&'a Own, LinkFault>
    ensures { on_ok (λ own. own.now.file) result ≡ interface_selected (flags_at name.now desc.now) class.now }
{
    match nearest_instance(name, desc, class.line()) {
        Some(own) => {
            if is_public(own.flags_at(name, desc)) {
                or_ruled(name, desc, class.walk(), Some(own))
            } else {
                Err(LinkFault::Access)
            }
        }
        None => ruled(name, desc, class.walk()),
    }
}

/// Whether a class has an instance method, from an interface on a public one where the class is none.
fn is_of_start(name: &Name, desc: &Name, from_interface: bool, own: &Own) -> bool
    ensures { result ≡ is_of_start (flags_at name.now desc.now) from_interface own.now }
{
    let flags = own.flags_at(name, desc);
    is_instance(flags) && (!from_interface || is_interface(own.file()) || is_public(flags))
}

/// The nearest of them.
fn nearest_of_start<'a>(
    name: &Name,
    desc: &Name,
    from_interface: bool,
    line: &'a [Shared<Own>],
) -> Option<&'a Own>
    ensures { option_copied result ≡ find (is_of_start (flags_at name.now desc.now) from_interface) line.now }
{
    for own in line {
        let own = own.get();
        if is_of_start(name, desc, from_interface, own) {
            return Some(own);
        }
    }
    None
}

/// What `invokespecial` selects.
#[tactic(auto, unfolding(crate::specs::Selection::selected_from))]
fn selected_from<'a>(name: &Name, desc: &Name, start: &'a Class) -> Result<&'a Own, LinkFault>
    ensures { on_ok (λ own. own.now.file) result ≡ selected_from (flags_at name.now desc.now) start.now }
{
    or_ruled(
        name,
        desc,
        start.walk(),
        nearest_of_start(name, desc, is_interface(start.file()), start.line()),
    )
}

/// The method that `invokevirtual` selects in the class of its receiver (JVM Specification 6.5): from the class upward, the first
/// instance method that overrides the resolved one (5.4.5); else, where exactly one of the most specific methods of its superinterfaces
/// (5.4.3.3) is not abstract, that one. The class of an array is `java/lang/Object`. It takes no memory.
///
/// # Errors
///
/// `Abstract` where the method is abstract, or there is none; `Change` where several of the most specific are not abstract. For a
/// `MethodAt` whose places are those of no method, `Abstract`.
#[tactic(auto, unfolding(crate::specs::Told::virtual_selection))]
pub fn select(class: &Class, resolved: &MethodAt) -> Result<Found, LinkFault>
    ensures exact { result ≡ virtual_selection class.now resolved.now }
    // A method stands there.
    ensures places { IfOk result (λ found. IsPlace class.now.walk found) }
{
    match named(resolved) {
        Some(method) => {
            let own = selected(method.name(), method.desc(), method.holder(), class)?;
            told(
                LinkFault::Abstract,
                method.name(),
                method.desc(),
                class.walk(),
                own,
            )
        }
        None => Err(LinkFault::Abstract),
    }
}

/// The method that `invokeinterface` selects in the class of its receiver (JVM Specification 6.5): from the class upward, the first
/// instance method of the resolved one's name and descriptor; else as [`select`]. It takes no memory.
///
/// # Errors
///
/// `Access` where the method of the class or of a superclass is not public; else as [`select`].
#[tactic(auto, unfolding(crate::specs::Told::interface_selection))]
pub fn select_interface(class: &Class, resolved: &MethodAt) -> Result<Found, LinkFault>
    ensures exact { result ≡ interface_selection class.now resolved.now }
    // A method stands there.
    ensures places { IfOk result (λ found. IsPlace class.now.walk found) }
{
    match named(resolved) {
        Some(method) => {
            let own = interface_selected(method.name(), method.desc(), class)?;
            told(
                LinkFault::Abstract,
                method.name(),
                method.desc(),
                class.walk(),
                own,
            )
        }
        None => Err(LinkFault::Abstract),
    }
}

/// The method that `invokespecial` selects from a start class on (JVM Specification 6.5), for another name than `<init>`: from the class
/// upward, the first instance method of the resolved one's name and descriptor, and behind an interface a public one of
/// `java/lang/Object`; else as [`select`]. It takes no memory.
///
/// # Errors
///
/// As [`select`].
#[tactic(auto, unfolding(crate::specs::Told::special_selection))]
pub fn select_from(start: &Class, resolved: &MethodAt) -> Result<Found, LinkFault>
    ensures exact { result ≡ special_selection start.now resolved.now }
    // A method stands there.
    ensures places { IfOk result (λ found. IsPlace start.now.walk found) }
{
    match named(resolved) {
        Some(method) => {
            let own = selected_from(method.name(), method.desc(), start)?;
            told(
                LinkFault::Abstract,
                method.name(),
                method.desc(),
                start.walk(),
                own,
            )
        }
        None => Err(LinkFault::Abstract),
    }
}
