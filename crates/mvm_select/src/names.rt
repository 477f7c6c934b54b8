ghost use Rattle.std.specs.Prelude.{◌≡◌};
ghost use Rattle.mvm_select.specs.Names.{has_class, share_package};

use mvm_classfile::ClassFile;
use mvm_set::{Shared, is_same, is_same_package, own_name};

/// Whether one of the files defines the class of this one's name.
#[tactic(auto, unfolding(crate::specs::Names::has_class))]
pub(crate) fn has_class(files: &[Shared<ClassFile>], file: &ClassFile) -> bool
    ensures { result ≡ has_class files.now file.now }
{
    for other in files {
        if is_same(other.get(), file) {
            return true;
        }
    }
    false
}

/// Whether two classes stand in one package (JVM Specification 5.3).
#[tactic(auto, unfolding(crate::specs::Names::share_package))]
pub(crate) fn share_package(one: &ClassFile, other: &ClassFile) -> bool
    ensures { result ≡ share_package one.now other.now }
{
    match own_name(one) {
        Some(name) => match own_name(other) {
            Some(wanted) => is_same_package(name, wanted),
            None => false,
        },
        None => false,
    }
}
