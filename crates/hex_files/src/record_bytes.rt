// Bytes of records: their digits, and what their sum comes to.
ghost use Rattle.std.specs.Prelude.{◌≡◌, ◌+◌, ◌%◌, ◌++◌, ◌<◌, true, OnOk, sum};
ghost use Rattle.std.specs.List.{flat_map};
ghost use Rattle.std.specs.Fmt.{digit_glyph};
ghost use Rattle.hex_files.specs.HexText.{byte_digits, complement};

use std::alloc::AllocError;

// The upper-case digit.
fn upper_glyph(digit: u8) -> u8
    requires { digit < 16 }
    ensures { result ≡ digit_glyph true digit }
{
    if digit < 10 { 48 + digit } else { 55 + digit }
}

// A byte in two digits.
pub fn put_byte(out: &mut Vec<u8>, byte: u8) -> Result<(), AllocError>
    ensures { OnOk result (out.new.items ≡ out.old.items ++ byte_digits byte) }
{
    out.extend_from_slice(&[upper_glyph(byte / 16), upper_glyph(byte % 16)])
}

// Bytes in two digits each.
pub fn put_bytes(out: &mut Vec<u8>, bytes: &[u8]) -> Result<(), AllocError>
    ensures { OnOk result (out.new.items ≡ out.old.items ++ flat_map byte_digits bytes.now) }
{
    for byte in bytes {
        put_byte(out, *byte)?;
    }
    Ok(())
}

// A number and some bytes, added up in 8 bits.
fn byte_sum(start: u8, bytes: &[u8]) -> u8
    ensures { result ≡ (start + sum bytes.now) % 256 }
{
    let mut total = start;
    for byte in bytes {
        total = total.wrapping_add(*byte);
    }
    total
}

// The two's complement of the sum of a record's first bytes and its data.
pub fn complement(head: &[u8], content: &[u8]) -> u8
    ensures { result ≡ complement (head.now ++ content.now) }
{
    let first = byte_sum(0, head);
    let total = byte_sum(first, content);
    ((256 - u32::from(total)) % 256) as u8
}
