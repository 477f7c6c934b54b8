ghost use Rattle.std.specs.Prelude.{◌≡◌};
ghost use Rattle.mvm_select.specs.Methods.{is_there, with_flag, without_flag, is_public, is_public_or_protected, is_not_private, is_instance, is_abstract};

use mvm_layout::flags::{ABSTRACT, PRIVATE, PROTECTED, PUBLIC, STATIC, has_flag};

/// Whether there is a method.
pub(crate) fn is_there(method: Option<u16>) -> bool
    ensures { result ≡ is_there method }
{
    match method {
        Some(_) => true,
        None => false,
    }
}

/// Whether there is a method with this flag.
fn with_flag(flag: u16, method: Option<u16>) -> bool
    ensures { result ≡ with_flag flag method }
{
    match method {
        Some(flags) => has_flag(flag, flags),
        None => false,
    }
}

/// Whether there is a method without this flag.
fn without_flag(flag: u16, method: Option<u16>) -> bool
    ensures { result ≡ without_flag flag method }
{
    match method {
        Some(flags) => !has_flag(flag, flags),
        None => false,
    }
}

/// Whether there is a public method (JVM Specification 4.6).
pub(crate) fn is_public(method: Option<u16>) -> bool
    ensures { result ≡ is_public method }
{
    with_flag(PUBLIC, method)
}

/// Whether there is a public or protected method (JVM Specification 4.6).
pub(crate) fn is_public_or_protected(method: Option<u16>) -> bool
    ensures { result ≡ is_public_or_protected method }
{
    with_flag(PUBLIC, method) || with_flag(PROTECTED, method)
}

/// Whether there is a method that is not private (JVM Specification 4.6).
pub(crate) fn is_not_private(method: Option<u16>) -> bool
    ensures { result ≡ is_not_private method }
{
    without_flag(PRIVATE, method)
}

/// Whether there is a method that is not static (JVM Specification 4.6).
pub(crate) fn is_instance(method: Option<u16>) -> bool
    ensures { result ≡ is_instance method }
{
    without_flag(STATIC, method)
}

/// Whether there is an abstract method (JVM Specification 4.6).
pub(crate) fn is_abstract(method: Option<u16>) -> bool
    ensures { result ≡ is_abstract method }
{
    with_flag(ABSTRACT, method)
}
