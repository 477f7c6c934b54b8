ghost use Rattle.std.specs.Prelude.{◌≡◌};
ghost use Rattle.mvm_set.specs.Access.{is_subclass, is_reachable, is_accessible};
ghost use Rattle.mvm_set.specs.Names.{own_name, is_near};

use crate::class::Class;
use crate::names::{is_called, is_same_package, own_name};
use mvm_base::Name;
use mvm_classfile::ClassFile;
use mvm_layout::flags;

/// Whether the class of a name is this class or one that it inherits from, a superinterface too.
#[tactic(auto, unfolding(crate::specs::Access::is_subclass))]
pub fn is_subclass(class: &Class, name: &Name) -> bool
    ensures { result ≡ is_subclass class.now name.now }
{
    let walk = class.walk();
    for i in 0..walk.len() {
        if is_called(name, walk[i].get().file()) {
            return true;
        }
    }
    false
}

/// Whether a file defines a class that stands in the package of the class of this name (JVM Specification 5.3).
fn is_near(name: &Name, file: &ClassFile) -> bool
    ensures { result ≡ is_near name.now (own_name file.now) }
{
    match own_name(file) {
        Some(own) => is_same_package(name, own),
        None => false,
    }
}

/// Whether the class that a file defines is accessible from the class of this name (JVM Specification 5.4.4): it is public, or
/// stands in the same package.
#[tactic(auto, unfolding(crate::specs::Access::is_reachable))]
pub fn is_reachable(from: &Name, file: &ClassFile) -> bool
    ensures { result ≡ is_reachable from.now file.now }
{
    flags::has_flag(flags::PUBLIC, file.parts().flags) || is_near(from, file)
}

/// Whether a member of these flags, declared by the class of the name `holder`, is accessible from a class (JVM Specification
/// 5.4.4). Of flags that contradict one another each gives its access.
#[tactic(auto, unfolding(crate::specs::Access::is_accessible))]
pub fn accessible(from: &Class, holder: &Name, flags: u16) -> bool
    ensures { result ≡ is_accessible from.now holder.now flags }
{
    let is_public = flags::has_flag(flags::PUBLIC, flags);
    let is_protected = flags::has_flag(flags::PROTECTED, flags);
    let is_private = flags::has_flag(flags::PRIVATE, flags);
    if is_public {
        return true;
    }
    if is_protected && (is_subclass(from, holder) || is_near(holder, from.file())) {
        return true;
    }
    if !(is_protected || is_private) && is_near(holder, from.file()) {
        return true;
    }
    is_private && is_called(holder, from.file())
}
