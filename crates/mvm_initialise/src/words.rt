ghost use Rattle.std.specs.Prelude.{◌≡◌, ◌≤◌, ◌+◌, ◌*◌, ◌-◌, ◌^◌, ℕ, min};
ghost use Rattle.mvm_heap.specs.Heap.{words};
ghost use Rattle.mvm_initialise.specs.Words.{has_words};
ghost use Rattle.mvm_isolate.specs.Numbered.{named};

use mvm_isolate::{Isolate, Stop};
use mvm_native::Thrown;

/// Whether so many words more are within the heap of an isolate, where the most that there can be stand for any number above.
pub(crate) fn has_words(isolate: &Isolate, sum: u64) -> Result<(), Stop>
    ensures exact { (wanted : ℕ) → sum ≡ min wanted (2 ^ 64 - 1) → result ≡ has_words wanted (named isolate.now) }
    ensures within { words (named isolate.now).heap.objects ≤ (named isolate.now).heap.size }
{
    let left = isolate.words_left();
    if sum > u64::from(left) {
        return Err(Stop::Throw(Thrown::OutOfMemoryError));
    }
    Ok(())
}

/// The sum of two numbers of words, or the most that there can be.
pub(crate) fn added(sum: u64, more: u64) -> u64
    ensures { result ≡ min (sum + more) (2 ^ 64 - 1) }
{
    match sum.checked_add(more) {
        Some(sum) => sum,
        None => u64::MAX,
    }
}

/// So many times so many words, or the most that there can be.
pub(crate) fn times(count: u32, sum: u64) -> u64
    ensures { result ≡ min (count * sum) (2 ^ 64 - 1) }
{
    match u64::from(count).checked_mul(sum) {
        Some(product) => product,
        None => u64::MAX,
    }
}
