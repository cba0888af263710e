// The operations on the bits of words.
ghost use Rattle.std.specs.Prelude.{◌≡◌, ◌/◌, ◌^◌, ◌≤◌, bit_and, bit_or, bit_xor};
ghost use Rattle.lisa_words.specs.Words.{word_not, word_shl, word_shr};

use crate::arithmetic::{is_negative, mask};
use crate::words::{Kind, Word};

/// The bits that both words have.
pub fn and(a: Word, b: Word) -> Word
    requires { a.width ≡ b.width }
    ensures bits { result.bits ≡ bit_and a.bits b.bits }
    ensures width { result.width ≡ a.width }
{
    Word {
        bits: a.bits & b.bits,
        width: a.width,
    }
}

/// The bits that one of the words has, or both.
pub fn or(a: Word, b: Word) -> Word
    requires { a.width ≡ b.width }
    ensures bits { result.bits ≡ bit_or a.bits b.bits }
    ensures width { result.width ≡ a.width }
{
    Word {
        bits: a.bits | b.bits,
        width: a.width,
    }
}

/// The bits that just one of the words has.
pub fn xor(a: Word, b: Word) -> Word
    requires { a.width ≡ b.width }
    ensures bits { result.bits ≡ bit_xor a.bits b.bits }
    ensures width { result.width ≡ a.width }
{
    Word {
        bits: a.bits ^ b.bits,
        width: a.width,
    }
}

/// The bits that the word doesn't have.
pub fn not(a: Word) -> Word
    ensures bits { result.bits ≡ word_not a.width a.bits }
    ensures width { result.width ≡ a.width }
{
    Word {
        bits: !a.bits & mask(a.width),
        width: a.width,
    }
}

/// The bits moved up, with zeros from below. None is left where the amount is the width or more.
pub fn shl(a: Word, by: u64) -> Word
    ensures bits { result.bits ≡ word_shl a.width a.bits by }
    ensures width { result.width ≡ a.width }
{
    let bits = if by < u64::from(a.width) {
        (a.bits << by) & mask(a.width)
    } else {
        0
    };
    Word {
        bits,
        width: a.width,
    }
}

/// The bits moved down, with copies of the top bit from above in the signed kind, and zeros otherwise.
/// They fill every bit where the amount is the width or more.
pub fn shr(a: Word, kind: Kind, by: u64) -> Word
    ensures bits { result.bits ≡ word_shr kind a.width a.bits by }
    ensures width { result.width ≡ a.width }
{
    if is_negative(a, kind) {
        not(lowered(not(a), by))
    } else {
        lowered(a, by)
    }
}

// The bits moved down, with zeros from above.
fn lowered(a: Word, by: u64) -> Word
    ensures bits { result.bits ≡ a.bits / 2 ^ by }
    ensures width { result.width ≡ a.width }
{
    let bits = if by < u64::from(a.width) {
        a.bits >> by
    } else {
        0
    };
    Word {
        bits,
        width: a.width,
    }
}
