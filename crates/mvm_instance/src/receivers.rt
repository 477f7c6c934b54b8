ghost use Rattle.std.specs.Prelude.{◌≡◌, Ok, Err, Some, IfOk, IfErr};
ghost use Rattle.mvm_isolate.specs.Isolate.{type_at};
ghost use Rattle.mvm_isolate.specs.Numbered.{look_of, name_at, named, type_of, IsClass, IsType};
ghost use Rattle.mvm_isolate.specs.Receivers.{class_of_type, is_thrown_as};

use crate::looked::extends_at;
use mvm_base::Name;
use mvm_isolate::{Isolate, Stop, TypeAt};
use mvm_native::Thrown;

/// Whether an object of this type is caught as one of the class of a name (JVM Specification 2.10). It takes no memory.
#[tactic(auto, unfolding(mvm_isolate::specs::Numbered::type_of))]
pub fn catches(isolate: &Isolate, name: &Name, at: TypeAt) -> bool
    requires { IsType isolate.now at }
    ensures { result ≡ is_thrown_as (look_of isolate.now) name.now (Some (type_of isolate.now at)) }
{
    match at {
        TypeAt::Class(mirror) => extends_at(isolate, mirror, name),
        TypeAt::Array(_) => false,
        TypeAt::Numbers(_) => false,
    }
}

/// Whether an object is caught as one of the class of a name (JVM Specification 2.10): it is of that class, or of one that has it as a superclass;
/// false where it is an array, or where there is no such object. It takes no memory.
pub fn is_thrown_as(isolate: &Isolate, name: &Name, object: u32) -> bool
    ensures { result ≡ is_thrown_as (look_of isolate.now) name.now (type_at (named isolate.now) object) }
{
    match isolate.type_at(object) {
        Some(at) => catches(isolate, name, at),
        None => false,
    }
}

/// The class on which a method is selected for an object of this type.
#[tactic(auto, unfolding(mvm_isolate::specs::Numbered::type_of))]
fn class_of_type(isolate: &Isolate, at: TypeAt) -> u32
    requires { IsType isolate.now at }
    ensures there { IsClass isolate.now result }
    ensures class { class_of_type (Some (type_of isolate.now at)) ≡ Ok (name_at isolate.now result) }
{
    match at {
        TypeAt::Class(mirror) => mirror,
        TypeAt::Array(_) => isolate.object_class(),
        TypeAt::Numbers(_) => isolate.object_class(),
    }
}

/// The number of the class on which a method is selected for an object (JVM Specification 6.5, under invokevirtual); of an array that is
/// `java/lang/Object`. It takes no memory.
///
/// # Errors
///
/// It throws `VerifyError` where there is no such object.
pub fn receiver_class(isolate: &Isolate, object: u32) -> Result<u32, Stop>
    ensures there { IfOk result (λ mirror. IsClass isolate.now mirror) }
    ensures class { IfOk result (λ mirror. class_of_type (type_at (named isolate.now) object) ≡ Ok (name_at isolate.now mirror)) }
    ensures err { IfErr result (λ stop. class_of_type (type_at (named isolate.now) object) ≡ Err stop) }
{
    match isolate.type_at(object) {
        Some(at) => Ok(class_of_type(isolate, at)),
        None => Err(Stop::Throw(Thrown::VerifyError)),
    }
}
