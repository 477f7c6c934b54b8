//! The name and the descriptor of a method by its index in the constant pool (JVM Specification 4.4.2, 4.4.6).
ghost use Rattle.std.specs.Prelude.{◌≡◌};
ghost use Rattle.std.specs.Option.{option_copied};
ghost use Rattle.mvm_check.specs.Operands.{name_and_type_of, method_name, method_desc};

use mvm_base::{List, Name};
use mvm_layout::Item;
use mvm_layout::pool::{member, name_and_type, text};

/// The indices of the name and of the descriptor of a method.
fn name_and_type_of(pool: &List<Item>, index: u16) -> Option<(u16, u16)>
    ensures { result ≡ name_and_type_of pool.now index }
{
    match member(pool, index) {
        Some((_, at)) => name_and_type(pool, at),
        None => None,
    }
}

/// The name of the method of an index.
pub(crate) fn method_name(pool: &List<Item>, index: u16) -> Option<&Name>
    ensures { option_copied result ≡ method_name pool.now index }
{
    match name_and_type_of(pool, index) {
        Some((name, _)) => text(pool, name),
        None => None,
    }
}

/// The index of the descriptor of the method of an index.
pub(crate) fn method_desc(pool: &List<Item>, index: u16) -> Option<u16>
    ensures { result ≡ method_desc pool.now index }
{
    match name_and_type_of(pool, index) {
        Some((_, desc)) => Some(desc),
        None => None,
    }
}
