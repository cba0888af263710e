// Numbers below 2^64 that texts write. Each text is read once, from the front.
ghost use Rattle.std.specs.Prelude.{◌≡◌, ℕ, ◌+◌, ◌*◌, ◌^◌, ◌<◌, ◌≤◌, Some, false, IfSome, SomeIff, decimal as decimal_digits};
ghost use Rattle.std.specs.Char.{digit_value};
ghost use Rattle.std.specs.Fmt.{digits};
ghost use Rattle.std.specs.Str.Parse.{digits_value};
ghost use Rattle.lisa_words.specs.Numerals.{IsNumeralBelow};

use crate::digits::{decimal, hex};

// A number with one more digit behind it, where the byte is a digit and the number stays small enough.
fn with_digit(value: u64, byte: u8, radix: u32) -> Option<u64>
    requires least { 2 ≤ radix }
    requires most { radix ≤ 36 }
    ensures { let next = value * radix + digit_value byte in SomeIff result ((digit_value byte < radix) × (next < 2 ^ 64)) next }
{
    let digit = char::from(byte).to_digit(radix)?;
    value
        .checked_mul(u64::from(radix))?
        .checked_add(u64::from(digit))
}

// The number that the digits write.
fn numeral_value(text: &[u8], radix: u32) -> Option<u64>
    requires least { 2 ≤ radix }
    requires most { radix ≤ 36 }
    ensures { SomeIff result (IsNumeralBelow radix (2 ^ 64) text.now) (digits_value radix text.now) }
{
    if text.is_empty() {
        return None;
    }
    let mut value = 0;
    for &byte in text {
        match with_digit(value, byte, radix) {
            Some(next) => value = next,
            None => return None,
        }
    }
    Some(value)
}

/// The number that decimal digits write. Zeros may lead.
pub fn decimal_value(text: &[u8]) -> Option<u64>
    ensures { SomeIff result (IsNumeralBelow 10 (2 ^ 64) text.now) (digits_value 10 text.now) }
{
    numeral_value(text, 10)
}

/// The number that hexadecimal digits of either case write. Zeros may lead.
pub fn hex_value(text: &[u8]) -> Option<u64>
    ensures { SomeIff result (IsNumeralBelow 16 (2 ^ 64) text.now) (digits_value 16 text.now) }
{
    numeral_value(text, 16)
}

/// The number whose decimal digits the text is, without zeros that lead.
pub fn canonical_decimal(text: &[u8]) -> Option<u64>
    ensures read { IfSome result (λ n. text.now ≡ decimal_digits n) }
    ensures found { (n : ℕ) → n < 2 ^ 64 → text.now ≡ decimal_digits n → result ≡ Some n }
{
    let value = decimal_value(text)?;
    let mut written = [0; 20];
    let count = decimal(value, &mut written);
    if &written[..count] == text {
        Some(value)
    } else {
        None
    }
}

/// The number whose hexadecimal digits the text is, in lower case and without zeros that lead.
pub fn canonical_hex(text: &[u8]) -> Option<u64>
    ensures read { IfSome result (λ n. text.now ≡ digits 16 false n) }
    ensures found { (n : ℕ) → n < 2 ^ 64 → text.now ≡ digits 16 false n → result ≡ Some n }
{
    let value = hex_value(text)?;
    let mut written = [0; 16];
    let count = hex(value, &mut written);
    if &written[..count] == text {
        Some(value)
    } else {
        None
    }
}
