//! What a call looks at of a method (JVM Specification 4.6, 4.7.3).

ghost use Rattle.std.specs.Prelude.{◌≡◌};
ghost use Rattle.mvm_isolate.specs.Numbered.{look_of, name_at, IsClass};
ghost use Rattle.mvm_invoke.specs.Calls.{head_in, head_of, size_of, thrown_without_code, without_code};

use mvm_classfile::{Code, Member};
use mvm_isolate::{Isolate, Stop};
use mvm_layout::flags::{ABSTRACT, has_flag};
use mvm_member::{MemberName, method_declared};
use mvm_native::Thrown;

/// How many local variables and operands a method's code has.
#[derive(Clone, Copy, Debug, PartialEq, Eq)]
pub struct Size {
    /// How many local variables.
    pub locals: u16,
    /// How deep its operand stack is.
    pub depth: u16,
}

/// What a call looks at of a method.
#[derive(Clone, Copy, Debug, PartialEq, Eq)]
pub struct Head {
    /// Its access flags.
    pub flags: u16,
    /// What its code has, if it has code.
    pub size: Option<Size>,
}

fn size_of(code: &Code) -> Size
    ensures { result ≡ size_of code.now }
{
    Size {
        locals: code.max_locals,
        depth: code.max_stack,
    }
}

fn head_of(method: &Member) -> Head
    ensures { result ≡ head_of method.now }
{
    Head {
        flags: method.flags,
        size: match &method.code {
            Some(code) => Some(size_of(code)),
            None => None,
        },
    }
}

/// What a call looks at of a method that the class of a number declares.
///
/// # Errors
///
/// A `VerifyError` where it declares none.
#[tactic(auto, unfolding(crate::specs::Calls::head_in, mvm_isolate::specs::Members::method_in))]
pub fn head_in(isolate: &Isolate, mirror: u32, member: &MemberName<'_>) -> Result<Head, Stop>
    requires class { IsClass isolate.now mirror }
    requires name { name_at isolate.now mirror ≡ member.now.class }
    ensures { result ≡ head_in (look_of isolate.now) member.now }
{
    match method_declared(isolate.class(mirror).get(), member.name(), member.desc()) {
        Some(method) => Ok(head_of(method)),
        None => Err(Stop::Throw(Thrown::VerifyError)),
    }
}

/// What is thrown for a method of these flags that has no code.
pub fn thrown_without_code(flags: u16) -> Thrown
    ensures { result ≡ thrown_without_code flags }
{
    if has_flag(ABSTRACT, flags) {
        Thrown::AbstractMethodError
    } else {
        Thrown::UnsatisfiedLinkError
    }
}

/// What is thrown for a method without code: it is abstract, or native and none of the machine's own (JVM Specification 4.6).
pub fn without_code(method: &Member) -> Thrown
    ensures { result ≡ without_code method.now }
{
    thrown_without_code(method.flags)
}
