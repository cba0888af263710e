// Bytes put behind what is written, and values stored at places.
ghost use Rattle.std.specs.Prelude.{◌≡◌, ◌++◌, ◌∷◌, [], ◌<◌, ◌^◌, ◌≤◌, nat_lt, min, false, OnOk};
ghost use Rattle.std.specs.Fmt.{digit_glyph};
ghost use Rattle.hex_files.specs.Maps.{stored};
ghost use Rattle.hex_files.specs.MemhText.{fixed_digits};

use std::alloc::AllocError;

// The lower-case digit.
fn lower_glyph(digit: u8) -> u8
    requires { digit < 16 }
    ensures { result ≡ digit_glyph false digit }
{
    if digit < 10 { 48 + digit } else { 87 + digit }
}

// So many of a number's lowest hexadecimal digits.
#[tactic(auto, unfolding(crate::specs::MemhText::fixed_digits))]
pub fn put_digits(out: &mut Vec<u8>, value: u64, count: u32) -> Result<(), AllocError>
    ensures { OnOk result (out.new.items ≡ out.old.items ++ fixed_digits count value) }
{
    if count == 0 {
        return Ok(());
    }
    put_digits(out, value / 16, count - 1)?;
    out.push(lower_glyph((value % 16) as u8))?;
    Ok(())
}

// Stores a value at a place, with 0 in the places that are lacking before it.
pub fn store_word(values: &mut Vec<u64>, place: usize, value: u64) -> Result<(), AllocError>
    ensures { OnOk result (values.new.items ≡ stored values.old.items (place, value)) }
{
    if place < values.len() {
        values[place] = value;
        return Ok(());
    }
    values.resize(place, 0)?;
    values.push(value)?;
    Ok(())
}

// The same of bytes.
pub fn store_byte(values: &mut Vec<u8>, place: usize, value: u8) -> Result<(), AllocError>
    ensures { OnOk result (values.new.items ≡ stored values.old.items (place, value)) }
{
    if place < values.len() {
        values[place] = value;
        return Ok(());
    }
    values.resize(place, 0)?;
    values.push(value)?;
    Ok(())
}

// Whether a number is below 2^width.
pub fn fits(value: u64, width: u32) -> bool
    requires { width ≤ 64 }
    ensures { result ≡ nat_lt value (2 ^ width) }
{
    width == 64 || value < 1 << width
}

// The smaller of a length and a limit.
pub fn at_most(len: usize, limit: usize) -> usize
    ensures value { result ≡ min len limit }
    ensures within { result ≤ len }
{
    if len < limit { len } else { limit }
}
