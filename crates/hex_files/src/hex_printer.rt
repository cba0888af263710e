// The text of a memory as an Intel HEX file.
ghost use Rattle.std.specs.Prelude.{◌≡◌, ◌++◌, ◌<◌, ◌≤◌, [], OnOk, IfOk, length};
ghost use Rattle.std.specs.List.{flat_map};
ghost use Rattle.hex_files.specs.HexText.{byte_count, low_bytes, memory_bytes, pieces, record_line, upper_line, data_lines, hex_text};

use crate::pieces::at_most;
use crate::record_bytes::{complement, put_byte, put_bytes};
use lisa_engine::ImageMemory;
use lisa_words::NoMemory;
use std::alloc::{AllocError, Global};

// How many bytes a cell of a width has.
pub fn byte_count(width: u32) -> u32
    requires { width ≤ 64 }
    ensures value { result ≡ byte_count width }
    ensures few { result ≤ 8 }
{
    (width + 7) / 8
}

// So many of a number's lowest bytes.
#[tactic(auto, unfolding(crate::specs::HexText::low_bytes))]
fn put_low_bytes(out: &mut Vec<u8>, value: u64, count: u32) -> Result<(), AllocError>
    ensures { OnOk result (out.new.items ≡ out.old.items ++ low_bytes count value) }
{
    if count == 0 {
        return Ok(());
    }
    out.push((value % 256) as u8)?;
    put_low_bytes(out, value / 256, count - 1)?;
    Ok(())
}

// The bytes of all cells.
fn cell_bytes(alloc: Global, width: u32, cells: &[u64]) -> Result<Vec<u8>, AllocError>
    requires { width ≤ 64 }
    ensures { IfOk result (λ v. v.items ≡ flat_map (low_bytes (byte_count width)) cells.now) }
{
    let count = byte_count(width);
    let mut bytes = Vec::new(alloc);
    for cell in cells {
        put_low_bytes(&mut bytes, *cell, count)?;
    }
    Ok(bytes)
}

// A record.
fn put_record(out: &mut Vec<u8>, address: u32, kind: u8, content: &[u8]) -> Result<(), AllocError>
    requires address { address < 65536 }
    requires short { length content.now < 256 }
    ensures { OnOk result (out.new.items ≡ out.old.items ++ record_line address kind content.now) }
{
    let head = [
        content.len() as u8,
        (address / 256) as u8,
        (address % 256) as u8,
        kind,
    ];
    out.push(b':')?;
    put_bytes(out, &head)?;
    put_bytes(out, content)?;
    put_byte(out, complement(&head, content))?;
    out.push(b'\n')?;
    Ok(())
}

// A record of type 04, where the upper 16 bits of the address change.
fn put_upper(out: &mut Vec<u8>, old: u32, new: u32) -> Result<(), AllocError>
    requires { new < 65536 }
    ensures { OnOk result (out.new.items ≡ out.old.items ++ upper_line old new) }
{
    if old == new {
        return Ok(());
    }
    put_record(out, 0, 4, &[(new / 256) as u8, (new % 256) as u8])?;
    Ok(())
}

// The records of data.
fn put_data(out: &mut Vec<u8>, bytes: &[u8]) -> Result<(), AllocError>
    requires { length bytes.now ≤ 8388608 }
    ensures { OnOk result (out.new.items ≡ out.old.items ++ data_lines 0 0 (pieces 16 bytes.now)) }
{
    let mut upper: u32 = 0;
    let mut address: u32 = 0;
    let mut rest = bytes;
    'records: loop {
        if rest.is_empty() {
            return Ok(());
        }
        let size = at_most(rest.len(), 16);
        let (content, more) = rest.split_at(size);
        let now = address / 65_536;
        put_upper(out, upper, now)?;
        put_record(out, address % 65_536, 0, content)?;
        upper = now;
        address += content.len() as u32;
        rest = more;
    }
}

/// The memory's cells as an Intel HEX file, in records of 16 bytes of data.
pub fn print_hex(alloc: Global, memory: &ImageMemory) -> Result<Vec<u8>, NoMemory>
    requires width { memory.now.width ≤ 64 }
    requires few { length memory.now.cells ≤ 1048576 }
    ensures { IfOk result (λ text. text.items ≡ hex_text memory.now) }
{
    let bytes = cell_bytes(alloc, memory.width, &memory.cells)?;
    let mut out = Vec::new(alloc);
    put_data(&mut out, &bytes)?;
    put_record(&mut out, 0, 1, &[])?;
    Ok(out)
}
