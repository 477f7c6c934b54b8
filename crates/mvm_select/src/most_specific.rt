ghost use Rattle.std.specs.Prelude.{◌≡◌};
ghost use Rattle.std.specs.Option.{option_copied};
ghost use Rattle.mvm_set.specs.Members.{flags_at};
ghost use Rattle.mvm_select.specs.Names.{on_ok};
ghost use Rattle.mvm_select.specs.MostSpecific.{declares, is_hidden, is_concrete, supers, first_concrete, has_another, ruled};

use crate::methods::{is_abstract, is_instance, is_not_private};
use crate::names::has_class;
use mvm_base::Name;
use mvm_classfile::ClassFile;
use mvm_set::{LinkFault, Own, Shared, is_interface, is_same};

/// Whether a class is an interface with a method of this name and descriptor that is neither private nor static.
#[tactic(auto, unfolding(crate::specs::MostSpecific::declares))]
pub(crate) fn declares(name: &Name, desc: &Name, own: &Own) -> bool
    ensures { result ≡ declares (flags_at name.now desc.now) own.now.file }
{
    if !is_interface(own.file()) {
        return false;
    }
    let flags = own.flags_at(name, desc);
    is_not_private(flags) && is_instance(flags)
}

/// All but the first of a class's walk, which is the class itself.
pub(crate) fn supers(walk: &[Shared<Own>]) -> &[Shared<Own>]
    ensures { result.now ≡ supers walk.now }
{
    match walk.split_first() {
        Some((_, supers)) => supers,
        None => walk,
    }
}

/// Whether another of these, which extends this interface, declares such a method.
#[tactic(auto, unfolding(crate::specs::MostSpecific::is_hidden))]
fn is_hidden(name: &Name, desc: &Name, supers: &[Shared<Own>], file: &ClassFile) -> bool
    ensures { result ≡ is_hidden (flags_at name.now desc.now) supers.now file.now }
{
    for other in supers {
        let other = other.get();
        if declares(name, desc, other)
            && !is_same(other.file(), file)
            && has_class(other.walk(), file)
        {
            return true;
        }
    }
    false
}

/// Whether the method of this interface is one of the most specific (JVM Specification 5.4.3.3), and not abstract.
fn is_concrete(name: &Name, desc: &Name, supers: &[Shared<Own>], own: &Own) -> bool
    ensures { result ≡ is_concrete (flags_at name.now desc.now) supers.now own.now.file }
{
    declares(name, desc, own)
        && !is_abstract(own.flags_at(name, desc))
        && !is_hidden(name, desc, supers, own.file())
}

/// The first of these whose method is one of the most specific, and not abstract.
#[tactic(auto, unfolding(crate::specs::MostSpecific::first_concrete))]
fn first_concrete<'a>(name: &Name, desc: &Name, supers: &'a [Shared<Own>]) -> Option<&'a Own>
    ensures { option_copied result ≡ first_concrete (flags_at name.now desc.now) supers.now }
{
    for own in supers {
        let own = own.get();
        if is_concrete(name, desc, supers, own) {
            return Some(own);
        }
    }
    None
}

/// Whether that of another of these than this one is, too.
#[tactic(auto, unfolding(crate::specs::MostSpecific::has_another))]
fn has_another(name: &Name, desc: &Name, supers: &[Shared<Own>], file: &ClassFile) -> bool
    ensures { result ≡ has_another (flags_at name.now desc.now) supers.now file.now }
{
    for other in supers {
        let other = other.get();
        if !is_same(other.file(), file) && is_concrete(name, desc, supers, other) {
            return true;
        }
    }
    false
}

/// The one of the most specific methods that is not abstract (JVM Specification 5.4.3.3), by its interface.
///
/// # Errors
///
/// `Abstract` where there is none, `Change` where there are several.
#[tactic(auto, unfolding(crate::specs::MostSpecific::ruled))]
pub(crate) fn ruled<'a>(
    name: &Name,
    desc: &Name,
    walk: &'a [Shared<Own>],
) -> Result<&'a Own, LinkFault>
    ensures { on_ok (λ own. own.now.file) result ≡ ruled (flags_at name.now desc.now) walk.now }
{
    let supers = supers(walk);
    match first_concrete(name, desc, supers) {
        Some(own) => {
            if has_another(name, desc, supers, own.file()) {
                Err(LinkFault::Change)
            } else {
                Ok(own)
            }
        }
        None => Err(LinkFault::Abstract),
    }
}
