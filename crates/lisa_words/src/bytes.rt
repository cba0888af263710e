//! Kinds of bytes.

ghost use Rattle.std.specs.Prelude.{◌≡◌};
ghost use Rattle.lisa_words.specs.Bytes.{is_blank, is_digit, is_hexadecimal, is_letter, is_word, is_printable, is_text, is_in_line};

/// Whether a byte is a space, tab, carriage return or line feed.
#[inline]
pub fn is_blank(b: u8) -> bool
    ensures { result ≡ is_blank b }
{
    b == b' ' || b == b'\t' || b == b'\n' || b == b'\r'
}

/// Whether a byte is a decimal digit.
#[inline]
pub fn is_digit(b: u8) -> bool
    ensures { result ≡ is_digit b }
{
    b >= b'0' && b <= b'9'
}

/// Whether a byte is a hexadecimal digit of either case.
#[inline]
pub fn is_hexadecimal(b: u8) -> bool
    ensures { result ≡ is_hexadecimal b }
{
    is_digit(b) || b >= b'A' && b <= b'F' || b >= b'a' && b <= b'f'
}

/// Whether a byte is a letter or `_`.
#[inline]
pub fn is_letter(b: u8) -> bool
    ensures { result ≡ is_letter b }
{
    b >= b'A' && b <= b'Z' || b >= b'a' && b <= b'z' || b == b'_'
}

/// Whether a byte is a letter, a digit or `_`.
#[inline]
pub fn is_word(b: u8) -> bool
    ensures { result ≡ is_word b }
{
    is_letter(b) || is_digit(b)
}

/// Whether a byte is printable ASCII.
#[inline]
pub fn is_printable(b: u8) -> bool
    ensures { result ≡ is_printable b }
{
    b >= 0x20 && b <= 0x7e
}

/// Whether a text may have the byte: printable ASCII, tab, carriage return and line feed.
#[inline]
pub fn is_text(b: u8) -> bool
    ensures { result ≡ is_text b }
{
    is_printable(b) || b == b'\t' || b == b'\n' || b == b'\r'
}

/// Whether a line of a text may have the byte: the same without the line feed.
#[inline]
pub(crate) fn is_in_line(b: u8) -> bool
    ensures { result ≡ is_in_line b }
{
    is_text(b) && b != b'\n'
}
