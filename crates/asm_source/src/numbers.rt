// Numbers: decimal, or `0x` and hexadecimal digits of either case, below 2^64.
ghost use Rattle.std.specs.Prelude.{◌≡◌, ◌≤◌, length};
ghost use Rattle.std.specs.Bool.{OnTrue};
ghost use Rattle.asm_source.specs.Numbers.{starts_hex, number_of, signed, IsShort};

use lisa_words::{decimal_value, hex_value};

fn starts_hex(word: &[u8]) -> bool
    ensures value { result ≡ starts_hex word.now }
    ensures long { OnTrue result (2 ≤ length word.now) }
{
    matches!(word, [b'0', b'x', ..])
}

// The number that a word is, if it is one.
pub fn number(word: &[u8]) -> Option<u64>
    ensures { result ≡ number_of word.now }
{
    if starts_hex(word) {
        let (_, digits) = word.split_at(2);
        return hex_value(digits);
    }
    decimal_value(word)
}

// A number with a sign.
pub fn signed(minus: bool, value: u64) -> i128
    ensures exact { result ≡ signed minus value }
    ensures short { IsShort 1 result }
{
    let value = i128::from(value);
    if minus { -value } else { value }
}
