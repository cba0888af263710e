// The digits of numbers.
ghost use Rattle.std.specs.Prelude.{◌≡◌, ◌+◌, ◌<◌, ◌≤◌, false, length, take, decimal as decimal_digits};
ghost use Rattle.std.specs.Fmt.{digits, digit_glyph};

/// Writes the decimal digits from the front, and answers how many.
pub fn decimal(value: u64, into: &mut [u8; 20]) -> usize
    ensures digits { take result into.new ≡ decimal_digits value }
    ensures count { result ≡ length (decimal_digits value) }
    ensures room { result ≤ 20 }
{
    if value < 10 {
        into[0] = 48 + value as u8;
        return 1;
    }
    let count = decimal(value / 10, into);
    into[count] = 48 + (value % 10) as u8;
    count + 1
}

// The lower-case digit.
fn hex_glyph(digit: u8) -> u8
    requires { digit < 16 }
    ensures { result ≡ digit_glyph false digit }
{
    if digit < 10 { 48 + digit } else { 87 + digit }
}

/// Writes the hexadecimal digits from the front, in lower case, and answers how many.
pub fn hex(value: u64, into: &mut [u8; 16]) -> usize
    ensures digits { take result into.new ≡ digits 16 false value }
    ensures count { result ≡ length (digits 16 false value) }
    ensures room { result ≤ 16 }
{
    if value < 16 {
        into[0] = hex_glyph(value as u8);
        return 1;
    }
    let count = hex(value / 16, into);
    into[count] = hex_glyph((value % 16) as u8);
    count + 1
}
