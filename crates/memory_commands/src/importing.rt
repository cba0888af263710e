//! The commands that make an image of a file that another tool wrote.
ghost use Rattle.std.specs.Prelude.{◌≡◌, ◌<◌, ◌^◌, length, IfOk};
ghost use Rattle.lisa_tree.specs.Descriptions.{description_tree};
ghost use Rattle.lisa_object.specs.Texts.{image_text};
ghost use Rattle.item_promises.specs.lisa_machine.Machines.{IsSpelled};
ghost use Rattle.item_promises.specs.lisa_machine.Resolving.{IsWidth};
ghost use Rattle.lisa_outcomes.specs.Replies.{Replies};
ghost use Rattle.lisa_outcomes.specs.Writes.{Writes};
ghost use Rattle.checked_descriptions.specs.Checked.{AfterChecks};
ghost use Rattle.checked_descriptions.specs.ToolViews.{checked_of, AreTools};
ghost use Rattle.memory_commands.specs.Imports.{with_cells_only, image_alone, ImportsFile, ImportsChecked, GivesImport};

use crate::memories::find_memory;
use crate::reading::read_memory;
use checked_descriptions::{Tools, description_of, tools_of};
use description_digest::digest;
use hex_files::MemoryFormat;
use lisa_engine::{ArrayItem, Image, ImageMemory};
use lisa_io::{Sink, put_all};
use lisa_object::{Stamped, print_image};
use lisa_outcomes::End;
use lisa_tree::Description;
use lisa_words::NoMemory;
use std::alloc::Global;

// An image of a memory alone, and of none where it has no cells.
fn alone(alloc: Global, memory: ImageMemory) -> Result<Image, NoMemory>
    ensures { IfOk result (λ image. image ≡ with_cells_only memory memory.cells) }
{
    let mut memories = Vec::new(alloc);
    if !memory.cells.is_empty() {
        memories.push(memory)?;
    }
    Ok(Image { memories })
}

// The text of the image of a memory alone.
fn print_alone(
    alloc: Global,
    description: &Description,
    memory: ImageMemory,
) -> Result<Vec<u8>, NoMemory>
    ensures { IfOk result (λ text. text.items ≡ image_text (image_alone (description_tree description.now) memory)) }
{
    let digest = digest(alloc, description)?;
    let image = alone(alloc, memory)?;
    print_image(alloc, &Stamped { digest, image })
}

// Writes the image of a memory alone.
fn write_alone<O: Sink>(
    alloc: Global,
    description: &Description,
    memory: ImageMemory,
    out: &mut O,
) -> Result<(), End>
    ensures { Writes (O.written out.old) (O.written out.new) (O.faults out.old) (O.faults out.new) result (image_text (image_alone (description_tree description.now) memory)) }
{
    let text = match print_alone(alloc, description, memory) {
        Ok(text) => text,
        Err(_) => return Err(End::NoMemory),
    };
    match put_all(out, &text) {
        Ok(()) => Ok(()),
        Err(_) => Err(End::WriteFault),
    }
}

// `fromhex` or `frommem` over a memory of the description.
fn import_file<O: Sink>(
    alloc: Global,
    format: MemoryFormat,
    description: &Description,
    array: &ArrayItem,
    file: &[u8],
    out: &mut O,
) -> Result<(), End>
    requires width { IsWidth array.now.width }
    requires short { length file.now < 2 ^ 32 }
    ensures { Replies (ImportsFile format file.now (description_tree description.now) array.now) (O.written out.old) (O.written out.new) (O.faults out.old) (O.faults out.new) result }
{
    match read_memory(alloc, format, file, array) {
        Ok(memory) => write_alone(alloc, description, memory, out),
        Err(end) => Err(end),
    }
}

// `fromhex` or `frommem` over a description that is checked.
fn import_with_tools<O: Sink>(
    alloc: Global,
    format: MemoryFormat,
    tools: &Tools,
    file: &[u8],
    memory: &str,
    out: &mut O,
) -> Result<(), End>
    requires tools { AreTools tools.now }
    requires short { length file.now < 2 ^ 32 }
    ensures { Replies (ImportsChecked format file.now memory.now (checked_of tools.now)) (O.written out.old) (O.written out.new) (O.faults out.old) (O.faults out.new) result }
{
    match find_memory(alloc, &tools.machine, format, memory) {
        Ok(array) => import_file(alloc, format, tools.machine.description(), array, file, out),
        Err(end) => Err(end),
    }
}

// `fromhex` or `frommem` over a description.
fn import_tree<O: Sink>(
    alloc: Global,
    format: MemoryFormat,
    description: Description,
    file: &[u8],
    memory: &str,
    out: &mut O,
) -> Result<(), End>
    requires spelled { IsSpelled (description_tree description) }
    requires short { length file.now < 2 ^ 32 }
    ensures { Replies (AfterChecks (description_tree description) (ImportsChecked format file.now memory.now)) (O.written out.old) (O.written out.new) (O.faults out.old) (O.faults out.new) result }
{
    match tools_of(alloc, description) {
        Ok(tools) => import_with_tools(alloc, format, &tools, file, memory, out),
        Err(end) => Err(end),
    }
}

/// `fromhex` or `frommem`, by the format: writes an image for the description, with the memory of this name alone and the cells that the file
/// gives it, and with no memory where it gives none; or is refused with the first fault: of the description, of a name that is no memory's, or of
/// the file.
pub fn import_memory<O: Sink>(
    alloc: Global,
    format: MemoryFormat,
    description: &[u8],
    file: &[u8],
    memory: &str,
    out: &mut O,
) -> Result<(), End>
    requires description { length description.now < 2 ^ 32 }
    requires file { length file.now < 2 ^ 32 }
    ensures { Replies (GivesImport format description.now file.now memory.now) (O.written out.old) (O.written out.new) (O.faults out.old) (O.faults out.new) result }
{
    match description_of(alloc, description) {
        Ok(description) => import_tree(alloc, format, description, file, memory, out),
        Err(end) => Err(end),
    }
}
