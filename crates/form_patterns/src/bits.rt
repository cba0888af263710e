//! Bits of codings, one below the other.

ghost use Rattle.std.specs.Prelude.{◌≡◌, ◌<◌, ◌+◌, ◌*◌, ◌^◌, [], ◌∷◌, map, replicate};
ghost use Rattle.instruction_trees.specs.Bits.{one_if, mask_bit, pattern_bit};
ghost use Rattle.instruction_forms.specs.coding_tables.Codings.{first_digit};
ghost use Rattle.form_patterns.specs.Frames.{digit_bit, pattern_frame, Adds};

use lisa_tree::Pattern;
use pattern_tables::BitPattern;

// A number with one more bit below its own.
fn with_bit(number: u64, bit: bool) -> u64
    ensures { number < 2 ^ 63 → result ≡ number * 2 + one_if bit }
{
    number << 1 | u64::from(bit)
}

// Whether a digit stands for a literal bit.
fn is_literal(digit: u8) -> bool
    ensures { result ≡ mask_bit (digit_bit digit) }
{
    digit == b'0' || digit == b'1'
}

// Whether a digit stands for a literal 1.
fn is_one(digit: u8) -> bool
    ensures { result ≡ pattern_bit (digit_bit digit) }
{
    digit == b'1'
}

// Adds the bit of a digit.
fn add_bit(digit: u8, bits: &mut BitPattern)
    ensures { Adds bits.old (digit_bit digit ∷ []) bits.new }
{
    bits.mask = with_bit(bits.mask, is_literal(digit));
    bits.pattern = with_bit(bits.pattern, is_one(digit));
}

/// Adds the bit of a digit so many times. More than 64 times leave what 64 do, so no more are gone through.
pub(crate) fn add_repeated(digit: u8, times: u32, bits: &mut BitPattern)
    ensures { Adds bits.old (replicate times (digit_bit digit)) bits.new }
{
    for _place in 0..times.min(64) {
        add_bit(digit, bits);
    }
}

// Adds the bits of digits.
fn add_digits(digits: &[u8], bits: &mut BitPattern)
    ensures { Adds bits.old (map digit_bit digits.now) bits.new }
{
    for &digit in digits {
        add_bit(digit, bits);
    }
}

// The first of some digits, `x` where there is none.
fn first_digit(digits: &[u8]) -> u8
    ensures { result ≡ first_digit digits.now }
{
    match digits {
        [digit, ..] => *digit,
        [] => b'x',
    }
}

/// Adds the bits of a pattern.
pub(crate) fn add_pattern(pattern: &Pattern, bits: &mut BitPattern)
    ensures { Adds bits.old (pattern_frame pattern.now) bits.new }
{
    let digits = pattern.digits.as_bytes();
    match pattern.times {
        None => add_digits(digits, bits),
        Some(times) => add_repeated(first_digit(digits), times, bits),
    }
}
