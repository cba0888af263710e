// The arithmetic of words. Each answer is the operation on whole numbers, reduced to the width.
ghost use Rattle.std.specs.Prelude.{◌≡◌, ◌+◌, ◌-◌, ◌^◌, ◌<◌, ◌≤◌, pos, negsuc};
ghost use Rattle.std.specs.Bool.{MatchBool};
ghost use Rattle.lisa_words.specs.Words.{meant, word_cut, word_widen, word_add, word_sub, word_mul, word_less};

use crate::words::{Kind, Word};

// The greatest word of a width.
pub(crate) fn mask(width: u32) -> u64
    requires low { 1 ≤ width }
    requires high { width ≤ 64 }
    ensures { result + 1 ≡ 2 ^ width }
{
    u64::MAX >> (64 - width)
}

// Whether the word means a number below 0. That number is then -1 - n, where n has each bit turned round.
pub(crate) fn is_negative(a: Word, kind: Kind) -> bool
    ensures { MatchBool result
        (meant kind a.width a.bits ≡ negsuc (2 ^ a.width - 1 - a.bits))
        (meant kind a.width a.bits ≡ pos a.bits) }
{
    kind == Kind::Signed && a.bits > mask(a.width) / 2
}

/// The word's low bits, as many as the width has.
pub fn cut(a: Word, width: u32) -> Word
    requires least { 1 ≤ width }
    requires most { width ≤ 64 }
    ensures bits { result.bits ≡ word_cut width a.bits }
    ensures width { result.width ≡ width }
{
    Word {
        bits: a.bits & mask(width),
        width,
    }
}

/// The same number at a width that is no smaller: the top bit is copied in the signed kind, and zeros are put otherwise.
pub fn widen(a: Word, kind: Kind, width: u32) -> Word
    requires wider { a.width ≤ width }
    requires most { width ≤ 64 }
    ensures bits { result.bits ≡ word_widen kind a.width a.bits width }
    ensures width { result.width ≡ width }
{
    if is_negative(a, kind) {
        let below = mask(a.width) - a.bits;
        return Word {
            bits: mask(width) - below,
            width,
        };
    }
    Word {
        bits: a.bits,
        width,
    }
}

/// The sum.
pub fn add(a: Word, b: Word) -> Word
    requires { a.width ≡ b.width }
    ensures bits { result.bits ≡ word_add a.width a.bits b.bits }
    ensures width { result.width ≡ a.width }
{
    Word {
        bits: a.bits.wrapping_add(b.bits) & mask(a.width),
        width: a.width,
    }
}

/// The difference.
pub fn sub(a: Word, b: Word) -> Word
    requires { a.width ≡ b.width }
    ensures bits { result.bits ≡ word_sub a.width a.bits b.bits }
    ensures width { result.width ≡ a.width }
{
    Word {
        bits: a.bits.wrapping_sub(b.bits) & mask(a.width),
        width: a.width,
    }
}

/// The product.
pub fn mul(a: Word, b: Word) -> Word
    requires { a.width ≡ b.width }
    ensures bits { result.bits ≡ word_mul a.width a.bits b.bits }
    ensures width { result.width ≡ a.width }
{
    Word {
        bits: a.bits.wrapping_mul(b.bits) & mask(a.width),
        width: a.width,
    }
}

/// Whether `a` means a smaller number than `b`.
pub fn less(a: Word, b: Word, kind: Kind) -> bool
    requires { a.width ≡ b.width }
    ensures { result ≡ word_less kind a.width a.bits b.bits }
{
    let below = is_negative(a, kind);
    if below == is_negative(b, kind) {
        a.bits < b.bits
    } else {
        below
    }
}
