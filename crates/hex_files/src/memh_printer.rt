// The text of a memory for `$readmemh`.
ghost use Rattle.std.specs.Prelude.{◌≡◌, ◌++◌, ◌∷◌, [], ◌≤◌, ◌<◌, ◌^◌, OnOk, IfOk, All, length};
ghost use Rattle.std.specs.List.{flat_map};
ghost use Rattle.hex_files.specs.MemhText.{digit_count, cell_line, memh_text};

use crate::pieces::put_digits;
use lisa_engine::ImageMemory;
use lisa_words::NoMemory;
use std::alloc::{AllocError, Global};

fn put_cell(out: &mut Vec<u8>, width: u32, cell: u64) -> Result<(), AllocError>
    requires { width ≤ 64 }
    ensures { OnOk result (out.new.items ≡ out.old.items ++ cell_line width cell) }
{
    put_digits(out, cell, (width + 3) / 4)?;
    out.push(b'\n')?;
    Ok(())
}

fn put_cells(out: &mut Vec<u8>, width: u32, cells: &[u64]) -> Result<(), AllocError>
    requires { width ≤ 64 }
    ensures { OnOk result (out.new.items ≡ out.old.items ++ flat_map (cell_line width) cells.now) }
{
    for cell in cells {
        put_cell(out, width, *cell)?;
    }
    Ok(())
}

/// The memory's cells, each in as many lower-case hexadecimal digits as its width needs, one to a line.
pub fn print_memh(alloc: Global, memory: &ImageMemory) -> Result<Vec<u8>, NoMemory>
    requires { memory.now.width ≤ 64 }
    ensures { IfOk result (λ text. text.items ≡ memh_text memory.now) }
{
    let mut out = Vec::new(alloc);
    put_cells(&mut out, memory.width, &memory.cells)?;
    Ok(out)
}
