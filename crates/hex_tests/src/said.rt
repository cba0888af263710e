// What readers answer, in words.
ghost use Rattle.std.specs.Prelude.{◌≡◌, IfOk};

use hex_files::{HexFault, MemhFault};
use lisa_engine::ArrayItem;
use lisa_words::{Name, NoMemory};
use std::alloc::{AllocError, Global};

pub fn array(alloc: Global, width: u32, depth: u32) -> Result<ArrayItem, NoMemory>
    ensures { IfOk result (λ array. array.width ≡ width) }
{
    let name = Name::from_bytes(alloc, b"prog")?;
    Ok(ArrayItem { name, width, depth })
}

pub fn cells_said(alloc: Global, cells: &[u64]) -> Result<String, AllocError> {
    let mut said = format!(in alloc; "cells ")?;
    for cell in cells {
        let one = format!(in alloc; "{cell:x} ")?;
        said.push_str(one.as_str())?;
    }
    Ok(said)
}

pub fn memh_said(alloc: Global, fault: &MemhFault) -> Result<String, AllocError> {
    match fault {
        MemhFault::NoSuchMemory { name } => format!(in alloc; "NoSuchMemory name={name}"),
        MemhFault::BadWord { at } => format!(in alloc; "BadWord at={at}"),
        MemhFault::CellRange {
            index,
            value,
            width,
        } => format!(in alloc; "CellRange index={index} value={value} width={width}"),
        MemhFault::PastEnd { index, depth } => {
            format!(in alloc; "PastEnd index={index} depth={depth}")
        }
        MemhFault::NoMemory => format!(in alloc; "NoMemory"),
    }
}

pub fn hex_said(alloc: Global, fault: &HexFault) -> Result<String, AllocError> {
    match fault {
        HexFault::NoSuchMemory { name } => format!(in alloc; "NoSuchMemory name={name}"),
        HexFault::BadRecord { line } => format!(in alloc; "BadRecord line={line}"),
        HexFault::BadSum {
            line,
            kept,
            expected,
        } => format!(in alloc; "BadSum line={line} kept={kept} expected={expected}"),
        HexFault::RecordType { line, kind } => {
            format!(in alloc; "RecordType line={line} kind={kind}")
        }
        HexFault::AfterEnd { line } => format!(in alloc; "AfterEnd line={line}"),
        HexFault::PastEnd {
            line,
            address,
            bytes,
        } => format!(in alloc; "PastEnd line={line} address={address} bytes={bytes}"),
        HexFault::NoEnd => format!(in alloc; "NoEnd"),
        HexFault::CellRange {
            index,
            value,
            width,
        } => format!(in alloc; "CellRange index={index} value={value} width={width}"),
        HexFault::NoMemory => format!(in alloc; "NoMemory"),
    }
}
