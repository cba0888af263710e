//! The signs, by their bytes.

ghost use Rattle.std.specs.Prelude.{◌≡◌};
ghost use Rattle.lisa_lexer.specs.Signs.{one_byte, two_bytes};

use lisa_tree::Sign;

// The sign of one byte.
pub fn one_byte(b: u8) -> Option<Sign>
    ensures { result ≡ one_byte b }
{
    match b {
        b'{' => Some(Sign::OpenBrace),
        b'}' => Some(Sign::CloseBrace),
        b'(' => Some(Sign::OpenRound),
        b')' => Some(Sign::CloseRound),
        b'[' => Some(Sign::OpenSquare),
        b']' => Some(Sign::CloseSquare),
        b';' => Some(Sign::Semicolon),
        b',' => Some(Sign::Comma),
        b'.' => Some(Sign::Dot),
        b'=' => Some(Sign::Equal),
        b'<' => Some(Sign::Less),
        b'>' => Some(Sign::Greater),
        b'+' => Some(Sign::Plus),
        b'-' => Some(Sign::Minus),
        b'*' => Some(Sign::Star),
        b'&' => Some(Sign::And),
        b'|' => Some(Sign::Or),
        b'^' => Some(Sign::Caret),
        b'~' => Some(Sign::Tilde),
        b'!' => Some(Sign::Exclamation),
        b'?' => Some(Sign::Question),
        b':' => Some(Sign::Colon),
        b'/' => Some(Sign::Slash),
        _ => None,
    }
}

// The sign of two bytes.
pub fn two_bytes(b: u8, c: u8) -> Option<Sign>
    ensures { result ≡ two_bytes b c }
{
    match (b, c) {
        (b'<', b'<') => Some(Sign::ShiftLeft),
        (b'>', b'>') => Some(Sign::ShiftRight),
        (b'<', b'=') => Some(Sign::LessEqual),
        (b'>', b'=') => Some(Sign::GreaterEqual),
        (b'=', b'=') => Some(Sign::EqualEqual),
        (b'!', b'=') => Some(Sign::NotEqual),
        (b'&', b'&') => Some(Sign::AndAnd),
        (b'|', b'|') => Some(Sign::OrOr),
        (b'#', b'U') => Some(Sign::DecimalFormat),
        (b'#', b'S') => Some(Sign::SignedFormat),
        (b'#', b'X') => Some(Sign::HexadecimalFormat),
        _ => None,
    }
}
