// A memory, from an Intel HEX file.
ghost use Rattle.std.specs.Prelude.{◌≡◌, ◌+◌, ◌^◌, ◌<◌, ◌≤◌, max, IfOk, OnOk, length};
ghost use Rattle.std.specs.List.{fold};
ghost use Rattle.std.specs.Str.Lines.{lines};
ghost use Rattle.hex_files.specs.Maps.{laid, stored};
ghost use Rattle.hex_files.specs.Before.{unless};
ghost use Rattle.hex_files.specs.HexReading.{two_bytes, is_past, given_by, writes_in, little, cells_of, first_wide, hex_of};
ghost use Rattle.hex_files.specs.HexMachine.{base_behind, step_of};
ghost use Rattle.hex_files.specs.HexGives.{Gives, Steps, IsSmall, values_in, IsUnlessNoMemory};

use crate::faults::HexFault;
use crate::hex_printer::byte_count;
use crate::pieces::{at_most, fits, store_byte};
use crate::records::{Record, read_record};
use lisa_engine::{ArrayItem, ImageMemory};
use lisa_words::Name;
use std::alloc::{AllocError, Global};
use text_lines::next_line;

fn two_bytes(content: &[u8]) -> u64
    ensures value { result ≡ two_bytes content.now }
    ensures small { result < 65536 }
{
    match content {
        [upper, lower, ..] => 256 * u64::from(*upper) + u64::from(*lower),
        _ => 0,
    }
}

// Whether a record of data at a base has a byte past this size.
fn is_past(size: u64, base: u64, line_record: &Record) -> bool
    requires { base < 2 ^ 32 }
    ensures { result ≡ is_past size base line_record.now }
{
    let len = line_record.content.len() as u64;
    line_record.kind == 0 && 0 < len && size < base + u64::from(line_record.address) + len
}

// The base behind a record, and none behind the end record.
fn base_behind(base: u64, line_record: &Record) -> Option<u64>
    requires { base < 2 ^ 32 }
    ensures value { result ≡ base_behind base line_record.now }
    ensures small { IsSmall result }
{
    match line_record.kind {
        1 => None,
        2 => Some(16 * two_bytes(&line_record.content)),
        4 => Some(65_536 * two_bytes(&line_record.content)),
        _ => Some(base),
    }
}

// Stores bytes one behind the other.
fn store_bytes(values: &mut Vec<u8>, start: usize, content: &[u8]) -> Result<(), AllocError>
    requires { start + length content.now < 2 ^ 64 }
    ensures { OnOk result (values.new.items ≡ fold stored values.old.items (laid start content.now)) }
{
    for (place, byte) in content.iter().enumerate() {
        store_byte(values, start + place, *byte)?;
    }
    Ok(())
}

// Stores what a record gives at a base.
fn store_record(values: &mut Vec<u8>, base: u64, line_record: &Record) -> Result<(), AllocError>
    requires { base < 2 ^ 32 }
    ensures { OnOk result (values.new.items ≡ fold stored values.old.items (given_by base line_record.now)) }
{
    if line_record.kind != 0 {
        return Ok(());
    }
    let start = base + u64::from(line_record.address);
    store_bytes(values, start as usize, &line_record.content)?;
    Ok(())
}

fn larger(a: u64, b: u64) -> u64
    ensures { result ≡ max a b }
{
    if a < b { b } else { a }
}

// Stores what a line gives, and answers the base behind it.
fn step(
    alloc: Global,
    size: u64,
    line: u32,
    base: Option<u64>,
    text: &[u8],
    values: &mut Vec<u8>,
) -> Result<Option<u64>, HexFault>
    requires { IsSmall base }
    ensures exact { Steps values.old.items values.new.items result (step_of size line base text.now) }
    ensures small { IfOk result IsSmall }
{
    if text.is_empty() {
        return Ok(base);
    }
    let record = read_record(alloc, line, text)?;
    let Some(from) = base else {
        return Err(HexFault::AfterEnd { line });
    };
    if is_past(size, from, &record) {
        return Err(HexFault::PastEnd {
            line,
            address: larger(from + u64::from(record.address), size),
            bytes: size,
        });
    }
    store_record(values, from, &record)?;
    Ok(base_behind(from, &record))
}

// The bytes that the lines give.
fn read_bytes(alloc: Global, size: u64, bytes: &[u8]) -> Result<Vec<u8>, HexFault>
    requires { length (lines bytes.now) < 2 ^ 32 }
    ensures { Gives (λ v. v.items) result (values_in (writes_in size (lines bytes.now))) }
{
    let mut values = Vec::new(alloc);
    let mut line: u32 = 0;
    let mut base = Some(0);
    let mut rest = bytes;
    'lines: while let Some((text, behind)) = next_line(rest) {
        line += 1;
        let after = step(alloc, size, line, base, text, &mut values)?;
        base = after;
        rest = behind;
    }
    match base {
        None => Ok(values),
        Some(_) => Err(HexFault::NoEnd),
    }
}

// The number whose lowest bytes these are.
#[tactic(auto, unfolding(crate::specs::HexReading::little))]
fn little(bytes: &[u8]) -> u64
    requires { length bytes.now ≤ 8 }
    ensures value { result ≡ little bytes.now }
    ensures small { result < 256 ^ length bytes.now }
{
    match bytes.split_first() {
        None => 0,
        Some((first, rest)) => u64::from(*first) + 256 * little(rest),
    }
}

// The cells that bytes are, where they fit.
fn cells_of(alloc: Global, width: u32, bytes: &[u8]) -> Result<Vec<u64>, HexFault>
    requires some { 1 ≤ width }
    requires few { width ≤ 64 }
    ensures { let cells = cells_of width bytes.now in Gives (λ v. v.items) result (unless (first_wide width 0 cells) cells) }
{
    let count = byte_count(width) as usize;
    let mut cells = Vec::new(alloc);
    let mut rest = bytes;
    'cells: loop {
        if rest.is_empty() {
            return Ok(cells);
        }
        let size = at_most(rest.len(), count);
        let (piece, more) = rest.split_at(size);
        let cell = little(piece);
        if !fits(cell, width) {
            return Err(HexFault::CellRange {
                index: cells.as_slice().len() as u64,
                value: cell,
                width: u64::from(width),
            });
        }
        cells.push(cell)?;
        rest = more;
    }
}

/// The memory that the bytes spell.
pub fn read_hex(alloc: Global, bytes: &[u8], memory: &ArrayItem) -> Result<ImageMemory, HexFault>
    requires some { 1 ≤ memory.now.width }
    requires few { memory.now.width ≤ 64 }
    requires short { length bytes.now < 2 ^ 32 }
    // The cells whose bytes the records give, or the first fault.
    ensures { IsUnlessNoMemory (hex_of memory.now bytes.now) result }
{
    let size = u64::from(byte_count(memory.width)) * u64::from(memory.depth);
    let bytes = read_bytes(alloc, size, bytes)?;
    let cells = cells_of(alloc, memory.width, &bytes)?;
    let name = Name::from_bytes(alloc, memory.name.as_bytes())?;
    Ok(ImageMemory {
        name,
        width: memory.width,
        depth: memory.depth,
        cells,
    })
}
