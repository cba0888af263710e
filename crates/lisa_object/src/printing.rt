// Pieces of texts, put behind what is written.
ghost use Rattle.std.specs.Prelude.{◌≡◌, ◌++◌, ◌<◌, false, OnOk, decimal};
ghost use Rattle.std.specs.Fmt.{digit_glyph};
ghost use Rattle.lisa_object.specs.Texts.{hex, byte_digits, digest_digits};

use lisa_words::{decimal as decimal_digits, hex as hex_digits};
use std::alloc::AllocError;

// These bytes.
pub fn put(out: &mut Vec<u8>, text: &[u8]) -> Result<(), AllocError>
    ensures { OnOk result (out.new.items ≡ out.old.items ++ text.now) }
{
    out.extend_from_slice(text)
}

// A decimal number.
pub fn put_decimal(out: &mut Vec<u8>, value: u64) -> Result<(), AllocError>
    ensures { OnOk result (out.new.items ≡ out.old.items ++ decimal value) }
{
    let mut digits = [0; 20];
    let count = decimal_digits(value, &mut digits);
    let (digits, _) = digits.split_at(count);
    put(out, digits)
}

// A hexadecimal number.
pub fn put_hex(out: &mut Vec<u8>, value: u64) -> Result<(), AllocError>
    ensures { OnOk result (out.new.items ≡ out.old.items ++ hex value) }
{
    let mut digits = [0; 16];
    let count = hex_digits(value, &mut digits);
    let (digits, _) = digits.split_at(count);
    put(out, digits)
}

fn glyph(digit: u8) -> u8
    requires { digit < 16 }
    ensures { result ≡ digit_glyph false digit }
{
    if digit < 10 { 48 + digit } else { 87 + digit }
}

// Two digits of a byte.
fn put_byte(out: &mut Vec<u8>, byte: u8) -> Result<(), AllocError>
    ensures { OnOk result (out.new.items ≡ out.old.items ++ byte_digits byte) }
{
    put(out, &[glyph(byte / 16), glyph(byte % 16)])
}

// The digits of a digest.
pub fn put_digest(out: &mut Vec<u8>, digest: &[u8]) -> Result<(), AllocError>
    ensures { OnOk result (out.new.items ≡ out.old.items ++ digest_digits digest.now) }
{
    for byte in digest {
        put_byte(out, *byte)?;
    }
    Ok(())
}
