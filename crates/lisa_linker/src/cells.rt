// The cells of memories, by the memories' names.
ghost use Rattle.std.specs.Prelude.{◌≡◌, ◌++◌, ◌∷◌, [], List, ℕ, IfOk, IsSome, OnOk, length, replicate};
ghost use Rattle.std.specs.Str.{bytes_eq};
ghost use Rattle.name_tables.specs.TableViews.{value_of};
ghost use Rattle.lisa_linker.specs.Tables.{cells_of, behind_if};

use lisa_words::{Name, NoMemory};
use name_tables::put_value;
use std::alloc::{AllocError, Global};
use std::collections::BTreeMap;

/// How many cells a memory has so far.
pub(crate) fn cell_count(cells: &BTreeMap<Name, Vec<u64>>, name: &Name) -> u64
    ensures { result ≡ length (cells_of cells.now name.now) }
{
    match cells.get(name) {
        Some(cells) => cells.len() as u64,
        None => 0,
    }
}

// Enters a memory, where it isn't there: it has no cells.
fn enter_memory(
    alloc: Global,
    cells: &mut BTreeMap<Name, Vec<u64>>,
    name: &Name,
) -> Result<(), AllocError>
    ensures there { OnOk result (IsSome (value_of cells.new name.now)) }
    ensures same { OnOk result ((m : List ℕ) → cells_of cells.new m ≡ cells_of cells.old m) }
{
    if cells.get(name).is_some() {
        return Ok(());
    }
    put_value(cells, name, Vec::new(alloc))?;
    Ok(())
}

// Adds cells to a memory that is there.
fn append_cells(
    cells: &mut BTreeMap<Name, Vec<u64>>,
    name: &Name,
    more: &[u64],
) -> Result<(), AllocError>
    requires { IsSome (value_of cells.old name.now) }
    ensures { OnOk result ((m : List ℕ) → cells_of cells.new m ≡ behind_if (bytes_eq m name.now) more.now (cells_of cells.old m)) }
{
    if let Some(own) = cells.get_mut(name) {
        own.extend_from_slice(more)?;
    }
    Ok(())
}

/// Adds a cell to a memory.
pub(crate) fn push_cell(
    alloc: Global,
    cells: &mut BTreeMap<Name, Vec<u64>>,
    name: &Name,
    value: u64,
) -> Result<(), NoMemory>
    ensures { OnOk result ((m : List ℕ) → cells_of cells.new m ≡ behind_if (bytes_eq m name.now) (value ∷ []) (cells_of cells.old m)) }
{
    enter_memory(alloc, cells, name)?;
    append_cells(cells, name, &[value])?;
    Ok(())
}

// So many cells of 0.
fn zeros(alloc: Global, count: u32) -> Result<Vec<u64>, NoMemory>
    ensures { IfOk result (λ cells. cells.items ≡ replicate count 0) }
{
    let mut cells = Vec::new(alloc);
    cells.resize(count as usize, 0)?;
    Ok(cells)
}

/// Adds cells of 0 to a memory.
pub(crate) fn push_zeros(
    alloc: Global,
    cells: &mut BTreeMap<Name, Vec<u64>>,
    name: &Name,
    count: u32,
) -> Result<(), NoMemory>
    ensures { OnOk result ((m : List ℕ) → cells_of cells.new m ≡ behind_if (bytes_eq m name.now) (replicate count 0) (cells_of cells.old m)) }
{
    let zeros = zeros(alloc, count)?;
    enter_memory(alloc, cells, name)?;
    append_cells(cells, name, &zeros)?;
    Ok(())
}
