//! The commands that write a memory of an image for other tools.
ghost use Rattle.std.specs.Prelude.{◌≡◌, ◌⊎◌, ◌<◌, ◌^◌, length, not, find, Some, IfOk};
ghost use Rattle.std.specs.List.{list_any};
ghost use Rattle.std.specs.Option.{option_copied};
ghost use Rattle.lisa_tree.specs.Descriptions.{description_tree};
ghost use Rattle.lisa_engine.specs.Images.{IsImage, is_array};
ghost use Rattle.item_promises.specs.machine_parts.Parts.{arrays_of};
ghost use Rattle.item_promises.specs.lisa_machine.Machines.{IsSpelled};
ghost use Rattle.lisa_outcomes.specs.Replies.{Replies};
ghost use Rattle.lisa_outcomes.specs.Stages.{Finds};
ghost use Rattle.lisa_outcomes.specs.declared.status.End.TheVariants as ends;
ghost use Rattle.lisa_outcomes.specs.declared.status.Refusal.TheVariants as refusals;
ghost use Rattle.lisa_object.specs.declared.faults.ImageFault.TheVariants as images;
ghost use Rattle.checked_descriptions.specs.engine_commands.Images.{IsMissing};
ghost use Rattle.checked_descriptions.specs.Checked.{AfterChecks};
ghost use Rattle.checked_descriptions.specs.DescriptionImages.{IsImageFor, IsNoImageFor};
ghost use Rattle.checked_descriptions.specs.ToolViews.{checked_of, AreTools};
ghost use Rattle.memory_commands.specs.Exports.{ExportsPart, AreArrays, ExportsImage, ExportsChecked, GivesExport};

use crate::memories::find_memory;
use crate::printing::write_part;
use checked_descriptions::{Tools, description_of, image_for, tools_of};
use hex_files::MemoryFormat;
use item_promises::Machine;
use lisa_engine::{ArrayItem, Image, ImageMemory};
use lisa_io::Sink;
use lisa_object::ImageFault;
use lisa_outcomes::{End, Refusal, RunBytes};
use lisa_tree::Description;
use lisa_words::Name;
use std::alloc::Global;

// A memory of an image is one of these arrays.
fn is_among(memory: &ImageMemory, arrays: &[ArrayItem]) -> bool
    ensures { result ≡ list_any (is_array memory.now) arrays.now }
{
    arrays.iter().any(|one| {
        memory.name == one.name && memory.width == one.width && memory.depth == one.depth
    })
}

// The first memory of an image that is none of these arrays.
fn first_missing<'a>(image: &'a Image, arrays: &[ArrayItem]) -> Option<&'a ImageMemory>
    ensures { option_copied result ≡ find (λ memory. not (list_any (is_array memory) arrays.now)) image.now }
{
    image
        .memories
        .iter()
        .find(|memory| !is_among(memory, arrays))
}

// The end of a command whose image has a memory of this name that is no array of the description.
fn missing(name: &Name) -> End
    ensures { (result ≡ ends.NoMemory) ⊎ (result ≡ ends.Refused (refusals.Image (images.NoSuchMemory name.now))) }
{
    match name.clone() {
        Ok(name) => End::Refused(Refusal::Image(ImageFault::NoSuchMemory { name })),
        Err(_) => End::NoMemory,
    }
}

// Whether each memory of an image is an array of the description.
fn check_memories(machine: &Machine, image: &Image) -> Result<(), End>
    ensures { let d = description_tree machine.now in Finds (λ _. image.now) (AreArrays d image.now) (IsMissing (arrays_of d) image.now) result }
{
    match first_missing(image, machine.arrays()) {
        Some(memory) => Err(missing(&memory.name)),
        None => Ok(()),
    }
}

// Writes what an image has for the memory of this name.
fn export_part<O: Sink>(
    alloc: Global,
    format: MemoryFormat,
    tools: &Tools,
    image: &Image,
    memory: &str,
    out: &mut O,
) -> Result<(), End>
    requires tools { AreTools tools.now }
    requires image { IsImage image.now }
    ensures { Replies (ExportsPart format memory.now (checked_of tools.now).tree image.now) (O.written out.old) (O.written out.new) (O.faults out.old) (O.faults out.new) result }
{
    match find_memory(alloc, &tools.machine, format, memory) {
        Ok(array) => write_part(alloc, format, image, array, out),
        Err(end) => Err(end),
    }
}

// `tohex` or `tomem` over the memories of an image.
fn export_image<O: Sink>(
    alloc: Global,
    format: MemoryFormat,
    tools: &Tools,
    image: &Image,
    memory: &str,
    out: &mut O,
) -> Result<(), End>
    requires tools { AreTools tools.now }
    requires image { IsImage image.now }
    ensures { Replies (ExportsImage format memory.now (checked_of tools.now).tree image.now) (O.written out.old) (O.written out.new) (O.faults out.old) (O.faults out.new) result }
{
    match check_memories(&tools.machine, image) {
        Ok(()) => export_part(alloc, format, tools, image, memory, out),
        Err(end) => Err(end),
    }
}

// The memories of the image that bytes spell, where it is for this description.
fn memories_for(alloc: Global, description: &Description, bytes: &[u8]) -> Result<Image, End>
    requires { length bytes.now < 2 ^ 32 }
    ensures finds { Finds (λ image. image) (IsImageFor (description_tree description.now) (Some bytes.now)) (IsNoImageFor (description_tree description.now) (Some bytes.now)) result }
    ensures kept { IfOk result IsImage }
{
    let files = RunBytes {
        main: &[],
        image: Some(bytes),
        schedule: None,
    };
    image_for(alloc, description, &files)
}

// `tohex` or `tomem` over a description that is checked.
fn export_with_tools<O: Sink>(
    alloc: Global,
    format: MemoryFormat,
    tools: &Tools,
    image: &[u8],
    memory: &str,
    out: &mut O,
) -> Result<(), End>
    requires tools { AreTools tools.now }
    requires short { length image.now < 2 ^ 32 }
    ensures { Replies (ExportsChecked format image.now memory.now (checked_of tools.now)) (O.written out.old) (O.written out.new) (O.faults out.old) (O.faults out.new) result }
{
    match memories_for(alloc, tools.machine.description(), image) {
        Ok(image) => export_image(alloc, format, tools, &image, memory, out),
        Err(end) => Err(end),
    }
}

// `tohex` or `tomem` over a description.
fn export_tree<O: Sink>(
    alloc: Global,
    format: MemoryFormat,
    description: Description,
    image: &[u8],
    memory: &str,
    out: &mut O,
) -> Result<(), End>
    requires spelled { IsSpelled (description_tree description) }
    requires short { length image.now < 2 ^ 32 }
    ensures { Replies (AfterChecks (description_tree description) (ExportsChecked format image.now memory.now)) (O.written out.old) (O.written out.new) (O.faults out.old) (O.faults out.new) result }
{
    match tools_of(alloc, description) {
        Ok(tools) => export_with_tools(alloc, format, &tools, image, memory, out),
        Err(end) => Err(end),
    }
}

/// `tohex` or `tomem`, by the format: writes the cells that the image has for the memory of this name, or is refused with the first fault: of
/// the description, of an image, of an image for another description, of the image's first memory that is no array of the description, or of a
/// name that is no memory's.
pub fn export_memory<O: Sink>(
    alloc: Global,
    format: MemoryFormat,
    description: &[u8],
    image: &[u8],
    memory: &str,
    out: &mut O,
) -> Result<(), End>
    requires description { length description.now < 2 ^ 32 }
    requires image { length image.now < 2 ^ 32 }
    ensures { Replies (GivesExport format description.now image.now memory.now) (O.written out.old) (O.written out.new) (O.faults out.old) (O.faults out.new) result }
{
    match description_of(alloc, description) {
        Ok(description) => export_tree(alloc, format, description, image, memory, out),
        Err(end) => Err(end),
    }
}
