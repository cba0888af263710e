// A memory, from a `$readmemh` file.
ghost use Rattle.std.specs.Prelude.{◌≡◌, ◌+◌, ◌^◌, ◌<◌, ◌≤◌, List, length};
ghost use Rattle.hex_files.specs.MemhReading.{Placed, cell_fault, memh_of};
ghost use Rattle.hex_files.specs.MemhGives.{Gives, PutsCell, ReadsWord, IsUnlessNoMemory};

use crate::faults::MemhFault;
use crate::memh_words::{MemhWord, next_word, word};
use crate::pieces::{fits, store_word};
use lisa_engine::{ArrayItem, ImageMemory};
use lisa_words::Name;
use std::alloc::Global;

// What is wrong with a value for a cell.
fn cell_fault(memory: &ArrayItem, index: u64, value: u64) -> Option<MemhFault>
    requires { memory.now.width ≤ 64 }
    ensures { result ≡ cell_fault memory.now index value }
{
    if !fits(value, memory.width) {
        let width = u64::from(memory.width);
        return Some(MemhFault::CellRange {
            index,
            value,
            width,
        });
    }
    let depth = u64::from(memory.depth);
    if index >= depth {
        return Some(MemhFault::PastEnd { index, depth });
    }
    None
}

// Gives a cell its value, and answers the index of the next one.
fn put_cell(
    memory: &ArrayItem,
    index: u64,
    value: u64,
    cells: &mut Vec<u64>,
) -> Result<u64, MemhFault>
    requires { memory.now.width ≤ 64 }
    ensures { PutsCell memory.now index value cells.old.items cells.new.items result }
{
    if let Some(fault) = cell_fault(memory, index, value) {
        return Err(fault);
    }
    store_word(cells, index as usize, value)?;
    Ok(index + 1)
}

// Does what a word says, and answers the index of the next cell.
fn read_word(
    memory: &ArrayItem,
    at: u32,
    index: u64,
    text: &[u8],
    cells: &mut Vec<u64>,
) -> Result<u64, MemhFault>
    requires { memory.now.width ≤ 64 }
    ensures { (later : List Placed) → ReadsWord memory.now at index text.now later cells.old.items cells.new.items result }
{
    let Some(found) = word(text) else {
        return Err(MemhFault::BadWord { at });
    };
    match found {
        MemhWord::Index(next) => Ok(next),
        MemhWord::Value(value) => put_cell(memory, index, value, cells),
    }
}

// The cells that the bytes give.
fn read_cells(alloc: Global, bytes: &[u8], memory: &ArrayItem) -> Result<Vec<u64>, MemhFault>
    requires width { memory.now.width ≤ 64 }
    requires short { length bytes.now < 2 ^ 32 }
    ensures { Gives memory.now result (memh_of memory.now bytes.now) }
{
    let mut cells = Vec::new(alloc);
    let mut next: u64 = 0;
    let mut at: usize = 0;
    let mut rest = bytes;
    'words: while let Some((skipped, text, behind)) = next_word(rest) {
        let place = at + skipped;
        let after = read_word(memory, place as u32, next, text, &mut cells)?;
        next = after;
        at = place + text.len();
        rest = behind;
    }
    Ok(cells)
}

/// The memory that the bytes spell.
pub fn read_memh(alloc: Global, bytes: &[u8], memory: &ArrayItem) -> Result<ImageMemory, MemhFault>
    requires width { memory.now.width ≤ 64 }
    requires short { length bytes.now < 2 ^ 32 }
    // The cells that the words give, or the fault of the first word that has one.
    ensures { IsUnlessNoMemory (memh_of memory.now bytes.now) result }
{
    let cells = read_cells(alloc, bytes, memory)?;
    let name = Name::from_bytes(alloc, memory.name.as_bytes())?;
    Ok(ImageMemory {
        name,
        width: memory.width,
        depth: memory.depth,
        cells,
    })
}
