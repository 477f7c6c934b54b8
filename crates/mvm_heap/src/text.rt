ghost use Rattle.std.specs.Prelude.{◌≡◌, ◌<◌, length, slice_set};
ghost use Rattle.mvm_heap.specs.Heap.{object_at, text, zeros};
ghost use Rattle.mvm_heap.specs.declared.kind.ObjectKind.TheVariants.{Text};

use crate::store::Store;

/// Writes the units of a text that has only zeros yet.
pub fn write_units(store: &mut Store, number: u32, units: &[u16])
    requires there { number < length store.old.objects }
    requires blank { object_at store.old.objects number ≡ zeros Text 0 (length units.now) }
    ensures { store.new ≡ record store.old { objects = slice_set store.old.objects number (text units.now) } }
{
    let len = store.length(number);
    for place in 0..len {
        store.put(number, place, u64::from(units[place as usize]));
    }
}
