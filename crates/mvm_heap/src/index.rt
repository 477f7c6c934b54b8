//! The interned texts by their units.

ghost use Rattle.std.specs.Prelude.{◌≡◌, ◌↔◌, ◌%◌, ◌<◌, length, IfSome, IsTrue};
ghost use Rattle.mvm_heap.specs.Heap.{interned, object_at};
ghost use Rattle.mvm_heap.specs.declared.kind.ObjectKind.TheVariants.{Text};
ghost use Rattle.mvm_heap.specs.Index.{hashed, numbers, IsIndexed};

use crate::store::Store;

/// A text that is interned, and one more than the place of the entry before it in its chain, or 0.
#[derive(Clone, Copy, Debug, PartialEq, Eq)]
pub struct Entry {
    /// The number of the text.
    pub number: u32,
    /// One more than the place of the entry before it in its chain, or 0.
    pub before: u32,
}

fn hashed(units: &[u16]) -> u64
    ensures hash { result ≡ hashed units.now }
    ensures small { result < 4294967291 }
{
    let mut hash = 0;
    for unit in units {
        hash = (hash * 65_599 + u64::from(*unit)) % 4_294_967_291;
    }
    hash
}

/// The bucket of these units.
pub fn bucket_of(units: &[u16], buckets: usize) -> usize
    requires { 0 < buckets }
    ensures bucket { result ≡ hashed units.now % buckets }
    ensures within { result < buckets }
{
    (hashed(units) % buckets as u64) as usize
}

/// Whether a text has these units.
fn has_units(store: &Store, text: u32, units: &[u16]) -> bool
    requires { text < length store.now.objects }
    ensures { IsTrue result ↔ ((object_at store.now.objects text).contents ≡ units.now) }
{
    let len = store.length(text);
    if len as usize != units.len() {
        return false;
    }
    for place in 0..len {
        if store.number(text, place) != u64::from(units[place as usize]) {
            return false;
        }
    }
    true
}

/// The number of the interned text of these units.
pub fn find(store: &Store, entries: &[Entry], heads: &[u32], units: &[u16]) -> Option<u32>
    requires { IsIndexed store.now.objects entries.now heads.now }
    ensures number { result ≡ interned store.now.objects (numbers entries.now) units.now }
    ensures there { IfSome result (λ n. n < length store.now.objects) }
    ensures sort { IfSome result (λ n. (object_at store.now.objects n).sort ≡ Text) }
    ensures units { IfSome result (λ n. (object_at store.now.objects n).contents ≡ units.now) }
{
    let mut place = heads[bucket_of(units, heads.len())] as usize;
    while place > 0 {
        let entry = entries[place - 1];
        if has_units(store, entry.number, units) {
            return Some(entry.number);
        }
        place = entry.before as usize;
    }
    None
}
