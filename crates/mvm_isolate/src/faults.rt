ghost use Rattle.std.specs.Prelude.{◌≡◌};
ghost use Rattle.mvm_isolate.specs.Faults.{stopped_by, thrown_by_format, thrown_by_link};

use crate::stop::Stop;
use mvm_classfile::ClassFault;
use mvm_native::Thrown;
use mvm_set::LinkFault;
use mvm_table::LoadFault;

/// What is thrown where bytes are no class file (JVM Specification 5.3.5).
fn thrown_by_format(fault: ClassFault) -> Thrown
    ensures { result ≡ thrown_by_format fault }
{
    match fault {
        ClassFault::Version(_) => Thrown::UnsupportedClassVersionError,
        _ => Thrown::ClassFormatError,
    }
}

/// What is thrown where a member can't be resolved, or no method is selected (JVM Specification 5.4.3, 6.5).
fn thrown_by_link(fault: LinkFault) -> Thrown
    ensures { result ≡ thrown_by_link fault }
{
    match fault {
        LinkFault::NoField => Thrown::NoSuchFieldError,
        LinkFault::NoMethod => Thrown::NoSuchMethodError,
        LinkFault::Access => Thrown::IllegalAccessError,
        LinkFault::Change => Thrown::IncompatibleClassChangeError,
        LinkFault::Abstract => Thrown::AbstractMethodError,
    }
}

/// Why an attempt stops that can't load, link or resolve a class (JVM Specification 5.3, 5.4).
#[tactic(auto, unfolding(crate::specs::Faults::stopped_by))]
pub(crate) fn stopped_by(fault: LoadFault) -> Stop
    ensures { result ≡ stopped_by fault }
{
    match fault {
        LoadFault::NoClass => Stop::Throw(Thrown::NoClassDefFoundError),
        LoadFault::WrongName => Stop::Throw(Thrown::NoClassDefFoundError),
        LoadFault::Format(fault) => Stop::Throw(thrown_by_format(fault)),
        LoadFault::Circular => Stop::Throw(Thrown::ClassCircularityError),
        LoadFault::Super => Stop::Throw(Thrown::IncompatibleClassChangeError),
        LoadFault::Link(fault) => Stop::Throw(thrown_by_link(fault)),
        LoadFault::Check(_) => Stop::Throw(Thrown::VerifyError),
        LoadFault::OutOfMemory => Stop::OutOfMemory,
    }
}

/// Why an attempt stops that finds no member, or selects no method (JVM Specification 5.4.3, 6.5).
pub(crate) fn stopped_by_link(fault: LinkFault) -> Stop
    ensures { result ≡ Stop.Throw (thrown_by_link fault) }
{
    Stop::Throw(thrown_by_link(fault))
}
