// The numbers that digits stand for.
ghost use Rattle.std.specs.Prelude.{◌≡◌, ◌<◌, ◌≤◌, ◌^◌, ◌-◌, IfOk, Some, None};
ghost use Rattle.std.specs.Option.{SomeIff};
ghost use Rattle.verilog_lexer.specs.Numbers.{next_number};
ghost use Rattle.verilog_text.specs.Lexing.{base_of, digit_of, is_base_digit, is_more_digit, digits_number, is_name_byte, is_graphic};

use lisa_words::{is_hexadecimal, is_word};

pub fn is_name_byte(b: u8) -> bool
    ensures { result ≡ is_name_byte b }
{
    is_word(b) || b == b'$'
}

pub fn is_graphic(b: u8) -> bool
    ensures { result ≡ is_graphic b }
{
    b >= 33 && b <= 126
}

// The base that a letter stands for.
pub fn base_of(letter: u8) -> Option<u8>
    ensures { result ≡ base_of letter }
{
    match letter {
        b'd' | b'D' => Some(10),
        b'h' | b'H' => Some(16),
        b'b' | b'B' => Some(2),
        _ => None,
    }
}

pub fn digit_of(b: u8) -> u8
    ensures { result ≡ digit_of b }
{
    if b <= 57 {
        b.saturating_sub(48)
    } else if b <= 70 {
        b.saturating_sub(55)
    } else {
        b.saturating_sub(87)
    }
}

pub fn is_base_digit(base: u8, b: u8) -> bool
    ensures { result ≡ is_base_digit base b }
{
    is_hexadecimal(b) && digit_of(b) < base
}

pub fn is_more_digit(base: u8, b: u8) -> bool
    ensures { result ≡ is_more_digit base b }
{
    is_base_digit(base, b) || b == b'_'
}

// The number so far, and one more digit.
fn next_value(base: u8, value: u64, b: u8) -> Option<u64>
    ensures { SomeIff result (next_number base value b < 2 ^ 64) (next_number base value b) }
{
    if b == b'_' {
        return Some(value);
    }
    value
        .checked_mul(base as u64)?
        .checked_add(digit_of(b) as u64)
}

// The number that digits of a base stand for, where it is below 2^64.
pub fn digits_value(base: u8, digits: &[u8]) -> Option<u64>
    requires { 1 ≤ base }
    ensures { SomeIff result (digits_number base digits.now < 2 ^ 64) (digits_number base digits.now) }
{
    let mut value = 0;
    for b in digits {
        value = next_value(base, value, *b)?;
    }
    Some(value)
}
