//! One word: the set of the places of its bits.

ghost use Rattle.std.specs.Prelude.{◌≡◌, ℕ, ◌<◌, ◌≤◌, MatchOption, true, false, ◌||◌, nat_eq};
ghost use Rattle.activation_bits.specs.Members.{has};

/// Whether a word has the bit of a place.
pub fn has_bit(word: u64, bit: u32) -> bool
    requires { bit < 64 }
    ensures { result ≡ has word bit }
{
    (word >> bit) & 1 == 1
}

/// The word with the bit of a place added.
pub fn with_bit(word: u64, bit: u32) -> u64
    requires { bit < 64 }
    ensures { (other : ℕ) → has result other ≡ (has word other || nat_eq other bit) }
{
    word | (1 << bit)
}

/// The least bit at a place or above it.
pub fn least_from(word: u64, from: u32) -> Option<u32>
    requires { from < 64 }
    ensures { MatchOption result ((bit : ℕ) → from ≤ bit → bit < 64 → has word bit ≡ false) (λ found. (from ≤ found) × (found < 64) × (has word found ≡ true) × ((bit : ℕ) → from ≤ bit → bit < found → has word bit ≡ false)) }
{
    let rest = word & (u64::MAX << from);
    if rest == 0 {
        None
    } else {
        Some(rest.trailing_zeros())
    }
}
