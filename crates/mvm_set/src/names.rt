ghost use Rattle.std.specs.Prelude.{◌≡◌};
ghost use Rattle.std.specs.Option.{option_copied};
ghost use Rattle.mvm_set.specs.Names.{own_name, is_called, is_same, is_interface, package_of, is_same_package};

use mvm_base::Name;
use mvm_classfile::ClassFile;
use mvm_layout::flags;
use mvm_layout::pool::class_name;

/// The unit that stands between the parts of a class's name, `/` (JVM Specification 4.2.1).
pub(crate) const SLASH: u16 = 47;

/// The name of the class that a file defines (JVM Specification 4.1). Every class file has one.
pub fn own_name(file: &ClassFile) -> Option<&Name>
    ensures { option_copied result ≡ own_name file.now }
{
    let parts = file.parts();
    class_name(&parts.pool, parts.this_class)
}

/// Whether a file defines the class of this name (JVM Specification 4.1).
pub fn is_called(name: &Name, file: &ClassFile) -> bool
    ensures { result ≡ is_called name.now file.now }
{
    match own_name(file) {
        Some(own) => own.same(name),
        None => false,
    }
}

/// Whether a file defines an interface (JVM Specification 4.1).
pub fn is_interface(file: &ClassFile) -> bool
    ensures { result ≡ is_interface file.now }
{
    flags::is_interface(file.parts().flags)
}

/// Whether two files define classes of one name.
pub fn is_same(one: &ClassFile, other: &ClassFile) -> bool
    ensures { result ≡ is_same one.now other.now }
{
    match own_name(other) {
        Some(name) => is_called(name, one),
        None => false,
    }
}

/// The package of the class of a name (JVM Specification 5.3): the units before its last slash.
#[tactic(auto, using(crate::proofs::Packages::package_before, crate::proofs::Packages::no_package, crate::proofs::Packages::no_slash_before))]
fn package_of(name: &Name) -> &[u16]
    ensures { result.now ≡ package_of name.now }
{
    let units = name.units();
    for i in (0..units.len()).rev() {
        if units[i] == SLASH {
            return &units[..i];
        }
    }
    &units[..0]
}

/// Whether the classes of two names stand in one package (JVM Specification 5.3).
pub fn is_same_package(one: &Name, other: &Name) -> bool
    ensures { result ≡ is_same_package one.now other.now }
{
    package_of(one) == package_of(other)
}
