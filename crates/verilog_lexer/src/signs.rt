// The signs, by their bytes.
ghost use Rattle.std.specs.Prelude.{◌≡◌};
ghost use Rattle.verilog_text.specs.Lexing.{one_byte, two_bytes};

use verilog_text::VSign;

// The sign of one byte.
pub fn one_byte(b: u8) -> Option<VSign>
    ensures { result ≡ one_byte b }
{
    match b {
        b'{' => Some(VSign::OpenBrace),
        b'}' => Some(VSign::CloseBrace),
        b'(' => Some(VSign::OpenRound),
        b')' => Some(VSign::CloseRound),
        b'[' => Some(VSign::OpenSquare),
        b']' => Some(VSign::CloseSquare),
        b';' => Some(VSign::Semicolon),
        b',' => Some(VSign::Comma),
        b'=' => Some(VSign::Equal),
        b'<' => Some(VSign::Less),
        b'>' => Some(VSign::Greater),
        b'+' => Some(VSign::Plus),
        b'-' => Some(VSign::Minus),
        b'*' => Some(VSign::Star),
        b'&' => Some(VSign::And),
        b'|' => Some(VSign::Or),
        b'^' => Some(VSign::Caret),
        b'~' => Some(VSign::Tilde),
        b'!' => Some(VSign::Exclamation),
        b'?' => Some(VSign::Question),
        b':' => Some(VSign::Colon),
        b'@' => Some(VSign::At),
        _ => None,
    }
}

// The sign of two bytes.
pub fn two_bytes(b: u8, c: u8) -> Option<VSign>
    ensures { result ≡ two_bytes b c }
{
    match (b, c) {
        (b'<', b'<') => Some(VSign::ShiftLeft),
        (b'>', b'>') => Some(VSign::ShiftRight),
        (b'<', b'=') => Some(VSign::LessEqual),
        (b'>', b'=') => Some(VSign::GreaterEqual),
        (b'=', b'=') => Some(VSign::EqualEqual),
        (b'!', b'=') => Some(VSign::NotEqual),
        (b'&', b'&') => Some(VSign::AndAnd),
        (b'|', b'|') => Some(VSign::OrOr),
        (b'^', b'~') => Some(VSign::Xnor),
        (b'~', b'^') => Some(VSign::Xnor),
        _ => None,
    }
}
