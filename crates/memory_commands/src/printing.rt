//! The text of a memory as another tool reads it.
ghost use Rattle.std.specs.Prelude.{◌≡◌, ◌≤◌, IfOk, find, length};
ghost use Rattle.std.specs.Option.{option_copied};
ghost use Rattle.lisa_engine.specs.Images.{IsImage, is_array};
ghost use Rattle.lisa_outcomes.specs.Writes.{Writes};
ghost use Rattle.memory_commands.specs.Exports.{empty_memory, part_for, memory_text};

use hex_files::{MemoryFormat, print_hex, print_memh};
use lisa_engine::{ArrayItem, Image, ImageMemory};
use lisa_io::{Sink, put_all};
use lisa_outcomes::End;
use lisa_words::NoMemory;
use std::alloc::Global;

// The text of a memory in a format.
fn print_memory(
    alloc: Global,
    format: MemoryFormat,
    memory: &ImageMemory,
) -> Result<Vec<u8>, NoMemory>
    requires width { memory.now.width ≤ 64 }
    requires few { length memory.now.cells ≤ 1048576 }
    ensures { IfOk result (λ text. text.items ≡ memory_text format memory.now) }
{
    match format {
        MemoryFormat::Hex => print_hex(alloc, memory),
        MemoryFormat::Memh => print_memh(alloc, memory),
    }
}

// Writes a memory in a format.
fn write_memory<O: Sink>(
    alloc: Global,
    format: MemoryFormat,
    memory: &ImageMemory,
    out: &mut O,
) -> Result<(), End>
    requires width { memory.now.width ≤ 64 }
    requires few { length memory.now.cells ≤ 1048576 }
    ensures { Writes (O.written out.old) (O.written out.new) (O.faults out.old) (O.faults out.new) result (memory_text format memory.now) }
{
    let text = match print_memory(alloc, format, memory) {
        Ok(text) => text,
        Err(_) => return Err(End::NoMemory),
    };
    match put_all(out, &text) {
        Ok(()) => Ok(()),
        Err(_) => Err(End::WriteFault),
    }
}

// The memory of an image that is this array.
fn find_part<'a>(image: &'a Image, array: &ArrayItem) -> Option<&'a ImageMemory>
    ensures { option_copied result ≡ find (λ memory. is_array memory array.now) image.now }
{
    image.memories.iter().find(|memory| {
        memory.name == array.name && memory.width == array.width && memory.depth == array.depth
    })
}

// A memory of this array without cells.
fn without_cells(alloc: Global, array: &ArrayItem) -> Result<ImageMemory, NoMemory>
    ensures { IfOk result (λ memory. memory ≡ empty_memory array.now) }
{
    Ok(ImageMemory {
        name: array.name.clone()?,
        width: array.width,
        depth: array.depth,
        cells: Vec::new(alloc),
    })
}

/// Writes what an image has for a memory of the description.
pub(crate) fn write_part<O: Sink>(
    alloc: Global,
    format: MemoryFormat,
    image: &Image,
    memory: &ArrayItem,
    out: &mut O,
) -> Result<(), End>
    requires image { IsImage image.now }
    requires width { memory.now.width ≤ 64 }
    ensures { Writes (O.written out.old) (O.written out.new) (O.faults out.old) (O.faults out.new) result (memory_text format (part_for image.now memory.now)) }
{
    match find_part(image, memory) {
        Some(part) => write_memory(alloc, format, part, out),
        None => match without_cells(alloc, memory) {
            Ok(part) => write_memory(alloc, format, &part, out),
            Err(_) => Err(End::NoMemory),
        },
    }
}
