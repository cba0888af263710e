// The text of an image.
ghost use Rattle.std.specs.Prelude.{◌≡◌, ◌++◌, ◌∷◌, [], OnOk, IfOk, length, map};
ghost use Rattle.std.specs.List.{flat_map};
ghost use Rattle.lisa_object.specs.Texts.{text_of, hex, memory_head, memory_lines, image_head, image_text};

use crate::parts::Stamped;
use crate::printing::{put, put_decimal, put_digest, put_hex};
use lisa_engine::ImageMemory;
use lisa_words::NoMemory;
use std::alloc::{AllocError, Global};

fn put_head(out: &mut Vec<u8>, memory: &ImageMemory, count: u64) -> Result<(), AllocError>
    requires { count ≡ length memory.now.cells }
    ensures { OnOk result (out.new.items ≡ out.old.items ++ (memory_head memory.now ++ 10 ∷ [])) }
{
    put(out, b"memory ")?;
    put(out, memory.name.as_bytes())?;
    put(out, b" ")?;
    put_decimal(out, memory.width as u64)?;
    put(out, b" ")?;
    put_decimal(out, memory.depth as u64)?;
    put(out, b" ")?;
    put_decimal(out, count)?;
    put(out, b"\n")
}

fn put_cell(out: &mut Vec<u8>, cell: u64) -> Result<(), AllocError>
    ensures { OnOk result (out.new.items ≡ out.old.items ++ (hex cell ++ 10 ∷ [])) }
{
    put_hex(out, cell)?;
    put(out, b"\n")
}

fn put_cells(out: &mut Vec<u8>, cells: &[u64]) -> Result<(), AllocError>
    ensures { OnOk result (out.new.items ≡ out.old.items ++ text_of (map hex cells.now)) }
{
    for cell in cells {
        put_cell(out, *cell)?;
    }
    Ok(())
}

fn put_memory(out: &mut Vec<u8>, memory: &ImageMemory) -> Result<(), AllocError>
    ensures { OnOk result (out.new.items ≡ out.old.items ++ text_of (memory_lines memory.now)) }
{
    let cells = memory.cells.as_slice();
    put_head(out, memory, cells.len() as u64)?;
    put_cells(out, cells)
}

fn put_memories(out: &mut Vec<u8>, memories: &[ImageMemory]) -> Result<(), AllocError>
    ensures { OnOk result (out.new.items ≡ out.old.items ++ text_of (flat_map memory_lines memories.now)) }
{
    for memory in memories {
        put_memory(out, memory)?;
    }
    Ok(())
}

fn put_image_head(out: &mut Vec<u8>, digest: &[u8]) -> Result<(), AllocError>
    ensures { OnOk result (out.new.items ≡ out.old.items ++ (image_head digest.now ++ 10 ∷ [])) }
{
    put(out, b"image 1 ")?;
    put_digest(out, digest)?;
    put(out, b"\n")
}

fn put_image(out: &mut Vec<u8>, image: &Stamped) -> Result<(), AllocError>
    ensures { OnOk result (out.new.items ≡ out.old.items ++ image_text image.now) }
{
    put_image_head(out, &image.digest)?;
    put_memories(out, &image.image.memories)?;
    put(out, b"end\n")
}

/// The one spelling of an image.
pub fn print_image(alloc: Global, image: &Stamped) -> Result<Vec<u8>, NoMemory>
    ensures { IfOk result (λ text. text.items ≡ image_text image.now) }
{
    let mut out = Vec::new(alloc);
    put_image(&mut out, image)?;
    Ok(out)
}
