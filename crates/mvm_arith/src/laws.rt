ghost use Rattle.std.specs.Prelude.{◌≡◌, ◌≢◌, ◌↔◌, ◌<◌, ◌^◌, ℕ, ℤ, pos};
ghost use Rattle.std.specs.Int.{Width};
ghost use mir.Val.{bits};
ghost use Rattle.mvm_arith.specs.Numbers.{reduced, quotient, remainder, floor, bits_of, with_bits};
ghost use Rattle.mvm_arith.specs.Meaning.{IsReduced, IsDivided, IsFloor, IsBitwise};

/// What holds of all numbers: the definitions that the calls cite come to what the JVM Specification says (2.3.1 and 6.5).
pub fn arithmetic_law()
    // A result is reduced to the one number of the width that has its low bits.
    ensures reduced { (w : Width) (z r : ℤ) → (r ≡ reduced w z) ↔ IsReduced w z r }
    // Division rounds toward zero.
    ensures divided { (n d : ℤ) → d ≢ pos 0 → IsDivided n d (quotient n d) (remainder n d) }
    // A shift that copies the sign rounds down.
    ensures floor { (z : ℤ) (m : ℕ) → 0 < m → IsFloor z m (floor z m) }
    // Each row of bits is the bits of a number of the width, which has them.
    ensures row { (w : Width) (n : ℕ) → n < 2 ^ bits w → bits_of w (with_bits w n) ≡ n }
    // What is computed bit by bit.
    ensures bitwise { (m n i : ℕ) → IsBitwise m n i }
{}
