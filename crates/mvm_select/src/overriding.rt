ghost use Rattle.std.specs.Prelude.{◌≡◌};
ghost use Rattle.mvm_set.specs.Members.{flags_at};
ghost use Rattle.mvm_select.specs.Overriding.{may_override, overrides_directly, overrides_through};

use crate::methods::{is_not_private, is_public_or_protected};
use crate::names::{has_class, share_package};
use mvm_base::Name;
use mvm_set::{Own, Shared};

/// Whether the method of this name and descriptor of a class may override that of the base (JVM Specification 5.4.5).
#[tactic(auto, unfolding(crate::specs::Overriding::may_override))]
pub(crate) fn may_override(name: &Name, desc: &Name, own: &Own, base: &Own) -> bool
    ensures { result ≡ may_override (flags_at name.now desc.now) own.now.file base.now.file }
{
    if !is_not_private(own.flags_at(name, desc)) {
        return false;
    }
    let overridden = base.flags_at(name, desc);
    is_public_or_protected(overridden)
        || (is_not_private(overridden) && share_package(own.file(), base.file()))
}

/// Whether it does, and the class inherits from the base.
fn overrides_directly(name: &Name, desc: &Name, own: &Own, base: &Own) -> bool
    ensures { result ≡ overrides_directly (flags_at name.now desc.now) own.now base.now.file }
{
    may_override(name, desc, own, base) && has_class(own.walk(), base.file())
}

/// Whether it overrides the method of one of these classes, which overrides that of the base.
#[tactic(auto, unfolding(crate::specs::Overriding::overrides_through))]
pub(crate) fn overrides_through(
    name: &Name,
    desc: &Name,
    walk: &[Shared<Own>],
    own: &Own,
    base: &Own,
) -> bool
    ensures { result ≡ overrides_through (flags_at name.now desc.now) walk.now own.now base.now.file }
{
    for third in walk {
        let third = third.get();
        if overrides_directly(name, desc, third, base)
            && overrides_directly(name, desc, own, third)
        {
            return true;
        }
    }
    false
}
