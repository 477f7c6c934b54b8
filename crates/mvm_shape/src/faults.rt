ghost use Rattle.std.specs.Prelude.{◌≡◌, ◌<◌, ◌+◌, ◌^◌};
ghost use Rattle.mvm_layout.specs.declared.fault.ClassFault.TheVariants.{Shape, Unsupported};

use mvm_layout::ClassFault;

/// The fault so far behind a place: what stands there can't stand in a class file.
pub(crate) fn shape_fault(at: u32, by: u32) -> ClassFault
    requires { at + by < 2 ^ 32 }
    ensures { result ≡ Shape (at + by) }
{
    ClassFault::Shape(at + by)
}

/// The fault so far behind a place: what stands there is left out of this machine's profile.
pub(crate) fn unsupported_fault(at: u32, by: u32) -> ClassFault
    requires { at + by < 2 ^ 32 }
    ensures { result ≡ Unsupported (at + by) }
{
    ClassFault::Unsupported(at + by)
}
