// Records of an Intel HEX file.
ghost use Rattle.std.specs.Prelude.{◌≡◌, ◌++◌, ◌<◌, ◌^◌, IfOk, option_map, option_and_then, length};
ghost use Rattle.hex_files.specs.HexReading.{byte_of, bytes_of, line_bytes, record_of, is_sized, record_fault};
ghost use Rattle.hex_files.specs.HexMachine.{record_at};
ghost use Rattle.hex_files.specs.HexGives.{Gives};

use crate::faults::HexFault;
use crate::record_bytes::complement;
use std::alloc::{AllocError, Global};
use std::marker::Model;

/// A record. Contracts see the record of the same parts, with the list of its data.
#[derive(Debug, Drop)]
pub struct Record {
    pub address: u32,
    pub kind: u8,
    pub content: Vec<u8>,
    /// Its last byte.
    pub kept: u8,
    /// What the last byte should be.
    pub expected: u8,
}

impl Model for Record {
    ghost use Rattle.hex_files.specs.HexRecord.{HexRecord};

    ghost Value = { HexRecord };

    ghost view = { λ r. record { address = r.address; kind = r.kind; content = r.content.items; kept = r.kept; expected = r.expected } };
}

// The byte that two digits write.
fn byte_of(high: u8, low: u8) -> Option<u8>
    ensures { result ≡ byte_of high low }
{
    let high = char::from(high).to_digit(16)?;
    let low = char::from(low).to_digit(16)?;
    Some((16 * high + low) as u8)
}

// The bytes that digits in pairs write.
fn bytes_of(alloc: Global, digits: &[u8]) -> Result<Option<Vec<u8>>, AllocError>
    ensures { IfOk result (λ found. option_map (λ v. v.items) found ≡ bytes_of digits.now) }
{
    let mut bytes = Vec::new(alloc);
    let mut left = digits;
    'pairs: while let [high, low, rest @ ..] = left {
        let Some(byte) = byte_of(*high, *low) else {
            return Ok(None);
        };
        bytes.push(byte)?;
        left = rest;
    }
    if left.is_empty() {
        Ok(Some(bytes))
    } else {
        Ok(None)
    }
}

// The bytes of a line.
fn line_bytes(alloc: Global, text: &[u8]) -> Result<Option<Vec<u8>>, AllocError>
    ensures { IfOk result (λ found. option_map (λ v. v.items) found ≡ line_bytes text.now) }
{
    match text {
        [b':', digits @ ..] => bytes_of(alloc, digits),
        _ => Ok(None),
    }
}

// The record whose bytes these are.
#[tactic(auto, unfolding(crate::specs::HexReading::record_of))]
fn record_of(alloc: Global, bytes: &[u8]) -> Result<Option<Record>, AllocError>
    ensures { IfOk result (λ found. found ≡ record_of bytes.now) }
{
    let [count, upper, lower, kind, rest @ ..] = bytes else {
        return Ok(None);
    };
    let len = usize::from(*count);
    if rest.len() != len + 1 {
        return Ok(None);
    }
    let (content, _) = rest.split_at(len);
    let expected = complement(&[*count, *upper, *lower, *kind], content);
    let content = Vec::from_slice(alloc, content)?;
    Ok(Some(Record {
        address: 256 * u32::from(*upper) + u32::from(*lower),
        kind: *kind,
        content,
        kept: rest[len],
        expected,
    }))
}

// Whether a record of its type may have so many bytes of data.
fn is_sized(line_record: &Record) -> bool
    ensures { result ≡ is_sized line_record.now }
{
    let len = line_record.content.len();
    match line_record.kind {
        0 => line_record.address as usize + len <= 65_536,
        1 => len == 0,
        2 | 4 => len == 2,
        3 | 5 => len == 4,
        _ => true,
    }
}

// What is wrong with the record in a line.
fn record_fault(line: u32, line_record: &Record) -> Option<HexFault>
    ensures { result ≡ record_fault line line_record.now }
{
    if !is_sized(line_record) {
        return Some(HexFault::BadRecord { line });
    }
    if line_record.kept != line_record.expected {
        return Some(HexFault::BadSum {
            line,
            kept: line_record.kept,
            expected: line_record.expected,
        });
    }
    if line_record.kind > 5 {
        return Some(HexFault::RecordType {
            line,
            kind: line_record.kind,
        });
    }
    None
}

// The record of a line's bytes.
fn record_in(alloc: Global, text: &[u8]) -> Result<Option<Record>, AllocError>
    ensures { IfOk result (λ found. found ≡ option_and_then record_of (line_bytes text.now)) }
{
    let found = line_bytes(alloc, text)?;
    match found {
        None => Ok(None),
        Some(bytes) => record_of(alloc, &bytes),
    }
}

// The record that a line is.
pub fn read_record(alloc: Global, line: u32, text: &[u8]) -> Result<Record, HexFault>
    ensures { Gives (λ r. r) result (record_at line text.now) }
{
    let found = record_in(alloc, text)?;
    let Some(record) = found else {
        return Err(HexFault::BadRecord { line });
    };
    if let Some(fault) = record_fault(line, &record) {
        return Err(fault);
    }
    Ok(record)
}
