ghost use Rattle.std.specs.Prelude.{◌≡◌, ◌≢◌};
ghost use Rattle.std.specs.Str.{bytes_eq};
ghost use Rattle.mvm_heap.specs.declared.kind.ItemKind.TheVariants.{Ref};
ghost use Rattle.mvm_isolate.specs.Look.{Look};
ghost use Rattle.mvm_isolate.specs.Types.{array_suits, base_of, base_suits, is_any_object, OBJECT};

use mvm_base::{Base, Name};
use mvm_heap::ItemKind;
use mvm_layout::pool::same_text;

/// Whether a name is that of `java/lang/Object`.
pub(crate) fn is_object(name: &Name) -> bool
    ensures { result ≡ bytes_eq name.now OBJECT }
{
    same_text(name.units(), b"java/lang/Object")
}

/// Whether a base is `java/lang/Object`, of which every array is an instance.
pub(crate) fn is_any_object(base: &Base) -> bool
    ensures { result ≡ is_any_object base.now }
{
    match base {
        Base::Object(name) => is_object(name),
        _ => false,
    }
}

/// Whether numbers of this kind are what a base says.
fn number_suits(kind: ItemKind, base: &Base) -> bool
    ensures { (look : Look) → kind ≢ Ref → result ≡ base_suits look (base_of kind) base.now }
{
    match kind {
        ItemKind::Boolean => matches!(base, Base::Boolean),
        ItemKind::Byte => matches!(base, Base::Byte),
        ItemKind::Char => matches!(base, Base::Char),
        ItemKind::Short => matches!(base, Base::Short),
        ItemKind::Int => matches!(base, Base::Int),
        ItemKind::Long => matches!(base, Base::Long),
        ItemKind::Ref => false,
    }
}

/// Whether an array of one dimension of these is an instance of the array type of these dimensions and this base.
#[tactic(auto, unfolding(mvm_isolate::specs::Types::array_suits))]
pub(crate) fn numbers_suit(kind: ItemKind, dims: u8, base: &Base) -> bool
    ensures { (look : Look) → kind ≢ Ref → result ≡ array_suits look (record { dims = 1; base = base_of kind }) (record { dims = dims; base = base.now }) }
{
    if 1 == dims {
        number_suits(kind, base)
    } else if dims < 1 {
        is_any_object(base)
    } else {
        false
    }
}
