ghost use Rattle.std.specs.Prelude.{◌≡◌, ◌<◌, ℕ, List, length, slice_get, Some, IfSome};
ghost use Rattle.std.specs.Option.{option_copied};
ghost use Rattle.mvm_layout.specs.Pool.{text};
ghost use Rattle.mvm_set.specs.Members.{method_at};
ghost use Rattle.mvm_member.specs.Members.{method_declared};

use crate::find::{method_at, methods_of};
use mvm_base::Name;
use mvm_classfile::Member;
use mvm_set::Class;

/// The place of the method of this name and descriptor among those that a class declares (JVM Specification 4.6).
#[tactic(auto, using(crate::proofs::Apart::method_within))]
pub fn method_place(class: &Class, name: &Name, desc: &Name) -> Option<u16>
    ensures value { result ≡ method_at name.now desc.now class.now.file }
    // A method stands there.
    ensures there { IfSome result (λ place. place < length class.now.file.methods) }
{
    method_at(class, name, desc)
}

/// The method of this name and descriptor that a class declares (JVM Specification 4.6).
#[tactic(auto, unfolding(crate::specs::Members::method_declared))]
pub fn method_declared<'a>(class: &'a Class, name: &Name, desc: &Name) -> Option<&'a Member>
    ensures { option_copied result ≡ method_declared name.now desc.now class.now.file }
{
    match method_at(class, name, desc) {
        Some(place) => methods_of(class).get(usize::from(place)),
        None => None,
    }
}

/// The method of a place among those that a class declares (JVM Specification 4.6).
#[tactic(auto, using(crate::proofs::Apart::method_here))]
pub fn method(class: &Class, place: u16) -> &Member
    requires { place < length class.now.file.methods }
    ensures value { slice_get class.now.file.methods place ≡ Some result.now }
    // It is the one of its name and descriptor.
    ensures only { (name desc : List ℕ) → text class.now.file.pool result.now.name ≡ Some name → text class.now.file.pool result.now.desc ≡ Some desc → method_at name desc class.now.file ≡ Some place }
{
    match class.file().parts().methods.get(usize::from(place)) {
        Some(method) => method,
        None => unreachable!(),
    }
}
