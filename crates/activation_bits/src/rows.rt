//! A row of words: the bits of the first are for the numbers below 64, those of the second for the next 64, and so on.

ghost use Rattle.std.specs.Prelude.{◌≡◌, ℕ, ◌<◌, ◌*◌, length, ◌||◌, nat_eq};
ghost use Rattle.activation_bits.specs.Members.{member};

use crate::words::{has_bit, with_bit};

/// Whether a number is in a row; none past its end is.
pub fn contains(row: &[u64], number: usize) -> bool
    ensures { result ≡ member row.now number }
{
    match row.get(number / 64) {
        Some(word) => has_bit(*word, (number % 64) as u32),
        None => false,
    }
}

/// Puts a number into a row that is long enough for it.
pub fn insert(row: &mut [u64], number: usize)
    requires { number < 64 * length row.old }
    ensures { (other : ℕ) → member row.new other ≡ (member row.old other || nat_eq other number) }
{
    row[number / 64] = with_bit(row[number / 64], (number % 64) as u32);
}
