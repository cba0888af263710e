//! The summary of a soak, in lines.
ghost use Rattle.std.specs.Prelude.{◌≡◌, ◌++◌, ◌<◌, false, IfOk, OnOk, decimal as decimal_digits};
ghost use Rattle.std.specs.Fmt.{digit_glyph};
ghost use Rattle.lisa_object.specs.Texts.{byte_digits, digest_digits};
ghost use Rattle.description_commands.specs.Checks.{count_line};
ghost use Rattle.generator_commands.specs.Reports.{digest_line, report_text};

use lisa_words::{NoMemory, decimal};
use std::alloc::{AllocError, Global};

/// How many instructions were drawn, how many edges were made, and the digests of the image and of both states.
#[derive(Clone, Copy, Debug)]
pub struct Report {
    pub cells: u64,
    pub edges: u64,
    pub image: [u8; 32],
    pub state: [u8; 32],
    pub clock: [u8; 32],
}

// A line of a label and a number.
fn put_count(out: &mut Vec<u8>, label: &[u8], count: u64) -> Result<(), AllocError>
    ensures { OnOk result (out.new.items ≡ out.old.items ++ count_line label.now count) }
{
    let mut digits = [0; 20];
    let length = decimal(count, &mut digits);
    let (digits, _) = digits.split_at(length);
    out.extend_from_slice(label)?;
    out.extend_from_slice(digits)?;
    out.extend_from_slice(b"\n")
}

// The character of a digit below 16.
fn glyph(digit: u8) -> u8
    requires { digit < 16 }
    ensures { result ≡ digit_glyph false digit }
{
    if digit < 10 { 48 + digit } else { 87 + digit }
}

// Two digits of a byte.
fn put_byte(out: &mut Vec<u8>, byte: u8) -> Result<(), AllocError>
    ensures { OnOk result (out.new.items ≡ out.old.items ++ byte_digits byte) }
{
    out.extend_from_slice(&[glyph(byte / 16), glyph(byte % 16)])
}

// The digits of a digest.
fn put_digits(out: &mut Vec<u8>, digest: &[u8]) -> Result<(), AllocError>
    ensures { OnOk result (out.new.items ≡ out.old.items ++ digest_digits digest.now) }
{
    for byte in digest {
        put_byte(out, *byte)?;
    }
    Ok(())
}

// A line of a label and a digest.
fn put_digest(out: &mut Vec<u8>, label: &[u8], digest: &[u8]) -> Result<(), AllocError>
    ensures { OnOk result (out.new.items ≡ out.old.items ++ digest_line label.now digest.now) }
{
    out.extend_from_slice(label)?;
    put_digits(out, digest)?;
    out.extend_from_slice(b"\n")
}

/// The five lines.
pub fn report_text(alloc: Global, report: &Report) -> Result<Vec<u8>, NoMemory>
    ensures { IfOk result (λ text. text.items ≡ report_text report.now) }
{
    let mut out = Vec::new(alloc);
    put_count(&mut out, b"cells ", report.cells)?;
    put_count(&mut out, b"edges ", report.edges)?;
    put_digest(&mut out, b"image ", &report.image)?;
    put_digest(&mut out, b"state ", &report.state)?;
    put_digest(&mut out, b"clock ", &report.clock)?;
    Ok(out)
}
