// Numbers, digits and ranges inside words.
ghost use Rattle.std.specs.Prelude.{◌≡◌, ◌<◌, ◌≤◌, ◌+◌, ◌*◌, ◌^◌, length, option_map, true, nat_lt, SomeIff};
ghost use Rattle.std.specs.Char.{digit_value};
ghost use Rattle.std.specs.List.{list_all, prefix_len};
ghost use Rattle.vcd_trace.specs.Parts.{numeral_of, is_binary, bits_of, is_decimal_digit, behind_digits, ends_range, is_range};

use lisa_words::decimal_value;

/// The number that a word writes in decimal digits.
pub(crate) fn numeral(text: &[u8]) -> Option<u64>
    ensures { result ≡ numeral_of text.now }
{
    decimal_value(text)
}

fn is_binary_digit(byte: u8) -> bool
    ensures { result ≡ nat_lt (digit_value byte) 2 }
{
    char::from(byte).is_digit(2)
}

fn are_binary_digits(text: &[u8]) -> bool
    ensures { result ≡ list_all (λ c. nat_lt (digit_value c) 2) text.now }
{
    text.iter().all(|byte| is_binary_digit(*byte))
}

/// Whether a word is one binary digit or more.
pub(crate) fn is_binary(text: &[u8]) -> bool
    ensures { result ≡ is_binary text.now }
{
    if text.is_empty() {
        return false;
    }
    are_binary_digits(text)
}

// A number with one more binary digit behind it, where it stays below 2^64.
fn with_bit(value: u64, byte: u8) -> Option<u64>
    ensures { let next = value * 2 + digit_value byte in SomeIff result ((digit_value byte < 2) × (next < 2 ^ 64)) next }
{
    let digit = char::from(byte).to_digit(2)?;
    value.checked_mul(2)?.checked_add(u64::from(digit))
}

/// The number that binary digits write, where it is below 2^64.
pub(crate) fn bits(digits: &[u8]) -> Option<u64>
    requires { is_binary digits.now ≡ true }
    ensures { result ≡ bits_of digits.now }
{
    let mut value = 0;
    for &byte in digits {
        match with_bit(value, byte) {
            Some(next) => value = next,
            None => return None,
        }
    }
    Some(value)
}

fn is_decimal_digit(byte: u8) -> bool
    ensures { result ≡ is_decimal_digit byte }
{
    char::from(byte).is_digit(10)
}

fn digit_count(text: &[u8]) -> usize
    ensures value { result ≡ prefix_len is_decimal_digit text.now }
    ensures within { result ≤ length text.now }
{
    text.iter()
        .take_while(|byte| is_decimal_digit(**byte))
        .count()
}

// What stands behind the digits at the front, where there are any.
fn past_digits(text: &[u8]) -> Option<&[u8]>
    ensures { option_map (λ rest. rest.now) result ≡ behind_digits text.now }
{
    let count = digit_count(text);
    if count == 0 {
        return None;
    }
    let (_, rest) = text.split_at(count);
    Some(rest)
}

// What stands behind the first digits of a range ends it.
fn ends_range(text: &[u8]) -> bool
    ensures { result ≡ ends_range text.now }
{
    let [sign, rest @ ..] = text else {
        return false;
    };
    if *sign == b']' {
        return rest.is_empty();
    }
    if *sign != b':' {
        return false;
    }
    match past_digits(rest) {
        Some(second) => second == b"]".as_slice(),
        None => false,
    }
}

/// Whether a word is a range of bits.
pub(crate) fn is_range(text: &[u8]) -> bool
    ensures { result ≡ is_range text.now }
{
    let [sign, rest @ ..] = text else {
        return false;
    };
    if *sign != b'[' {
        return false;
    }
    match past_digits(rest) {
        Some(rest) => ends_range(rest),
        None => false,
    }
}
