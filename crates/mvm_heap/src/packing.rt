//! Items that stand packed in words.

ghost use Rattle.std.specs.Prelude.{◌≡◌, ◌+◌, ◌*◌, ◌<◌, ◌≤◌, ◌^◌};
ghost use Rattle.mvm_heap.specs.Digits.{item_at, replaced};

/// The item in a place of a word that has so many items of so many bits.
#[tactic(auto, unfolding(crate::specs::Digits::item_at))]
pub fn item_at(bits: u32, place: u32, count: u32, word: u64) -> u64
    requires there { place < count }
    requires within { count * bits ≡ 64 }
    ensures { result ≡ item_at bits (place * bits) word }
{
    if bits == 64 {
        return word;
    }
    (word >> (place * bits)) % power(bits)
}

/// A word with another item in a place of it.
#[tactic(auto, unfolding(crate::specs::Digits::replaced))]
pub fn replaced(bits: u32, place: u32, count: u32, value: u64, word: u64) -> u64
    requires there { place < count }
    requires within { count * bits ≡ 64 }
    requires fits { value < 2 ^ bits }
    ensures { result ≡ replaced bits (place * bits) value word }
{
    if bits == 64 {
        return value;
    }
    let shift = place * bits;
    let place_value = power(shift);
    let above = (word >> shift) >> bits;
    (above * power(bits) + value) * place_value + word % place_value
}

/// A power of two.
fn power(exponent: u32) -> u64
    requires { exponent < 64 }
    ensures { result ≡ 2 ^ exponent }
{
    1 << exponent
}
