//! Memories from files that other tools wrote.
ghost use Rattle.std.specs.Prelude.{◌≡◌, ◌<◌, ◌^◌, length};
ghost use Rattle.item_promises.specs.lisa_machine.Resolving.{IsWidth};
ghost use Rattle.lisa_outcomes.specs.Stages.{Finds};
ghost use Rattle.hex_files.specs.declared.formats.MemoryFormat.TheVariants as formats;
ghost use Rattle.memory_commands.specs.Imports.{IsRead, IsUnread};
ghost use Rattle.memory_commands.specs.Unread.{unread_hex, unread_memh};

use hex_files::{HexFault, MemhFault, MemoryFormat, read_hex, read_memh};
use lisa_engine::{ArrayItem, ImageMemory};
use lisa_outcomes::{End, Refusal};
use std::alloc::Global;

// The end of a command whose Intel HEX file wasn't read.
fn unread_hex(fault: HexFault) -> End
    ensures { result ≡ unread_hex fault }
{
    match fault {
        HexFault::NoMemory => End::NoMemory,
        other => End::Refused(Refusal::Hex(other)),
    }
}

// The end of a command whose file for `$readmemh` wasn't read.
fn unread_memh(fault: MemhFault) -> End
    ensures { result ≡ unread_memh fault }
{
    match fault {
        MemhFault::NoMemory => End::NoMemory,
        other => End::Refused(Refusal::Memh(other)),
    }
}

// The memory that an Intel HEX file spells.
fn hex_memory(alloc: Global, bytes: &[u8], array: &ArrayItem) -> Result<ImageMemory, End>
    requires width { IsWidth array.now.width }
    requires short { length bytes.now < 2 ^ 32 }
    ensures { Finds (λ memory. memory) (IsRead formats.Hex array.now bytes.now) (IsUnread formats.Hex array.now bytes.now) result }
{
    match read_hex(alloc, bytes, array) {
        Ok(memory) => Ok(memory),
        Err(fault) => Err(unread_hex(fault)),
    }
}

// The memory that a file for `$readmemh` spells.
fn memh_memory(alloc: Global, bytes: &[u8], array: &ArrayItem) -> Result<ImageMemory, End>
    requires width { IsWidth array.now.width }
    requires short { length bytes.now < 2 ^ 32 }
    ensures { Finds (λ memory. memory) (IsRead formats.Memh array.now bytes.now) (IsUnread formats.Memh array.now bytes.now) result }
{
    match read_memh(alloc, bytes, array) {
        Ok(memory) => Ok(memory),
        Err(fault) => Err(unread_memh(fault)),
    }
}

/// The memory that bytes spell in a format, for a memory of the description.
pub(crate) fn read_memory(
    alloc: Global,
    format: MemoryFormat,
    bytes: &[u8],
    array: &ArrayItem,
) -> Result<ImageMemory, End>
    requires width { IsWidth array.now.width }
    requires short { length bytes.now < 2 ^ 32 }
    ensures { Finds (λ memory. memory) (IsRead format array.now bytes.now) (IsUnread format array.now bytes.now) result }
{
    match format {
        MemoryFormat::Hex => hex_memory(alloc, bytes, array),
        MemoryFormat::Memh => memh_memory(alloc, bytes, array),
    }
}
