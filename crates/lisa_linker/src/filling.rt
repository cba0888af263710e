// The cells of objects, with the values of their sums.
#![tactic(auto, using(object_links::proofs::Steps::one_object))]

ghost use Rattle.std.specs.Prelude.{◌≡◌, ◌⊎◌, ◌+◌, ◌<◌, ◌≤◌, ◌^◌, ◌++◌, ◌∷◌, [], List, ℕ, ℤ, All, None, Some, map, length, flat_map, IfOk, IfErr, OnOk, MatchOption, IsTrue, false, option_copied};
ghost use Rattle.std.specs.Map.{lookup};
ghost use Rattle.std.specs.Str.{bytes_eq};
ghost use Rattle.name_tables.specs.TableViews.{value_of};
ghost use Rattle.lisa_object.specs.declared.faults.LinkFault.TheVariants as faults;
ghost use Rattle.lisa_object.specs.Objects.{Cell, object_line_tree, object_tree};
ghost use Rattle.lisa_object.specs.ObjectRules.{AreLines, IsObject};
ghost use Rattle.placed_programs.specs.Entries.{entries_of};
ghost use Rattle.placed_programs.specs.Addresses.{Counts, no_cells, counts_after, address};
ghost use Rattle.placed_programs.specs.Symbols.{with_counts, all_exports};
ghost use Rattle.placed_programs.specs.Placed.{object_sense, cells_in, part_cells};
ghost use Rattle.object_links.specs.LinkFaults.{cell_fault, range_in, range_from, out_of_range};
ghost use Rattle.object_links.specs.LineNames.{parts_of};
ghost use Rattle.object_links.specs.LineSizes.{count_of};
ghost use Rattle.lisa_linker.specs.LineValues.{cell_before, fixed, IsReady, line_cells, line_fault};
ghost use Rattle.lisa_linker.specs.Tables.{AreShort, HasShort, symbols_of, cells_of, sizes_of, behind_if, is_here};
ghost use Rattle.lisa_linker.specs.Parts.{part_fault, all_cells};

use crate::cells::{cell_count, push_cell, push_zeros};
use crate::fixes::{cell_value, range_fault};
use crate::sums::Values;
use crate::values::{line_values, shared_values};
use lisa_object::{LinkFault, Object, ObjectLine};
use lisa_words::{Name, NoMemory};
use object_links::line_enters;
use std::alloc::Global;
use std::collections::BTreeMap;

// Adds the cell with these bits and the fixes at the front of the lines to a memory.
fn add_cell(
    alloc: Global,
    number: u32,
    values: Values<'_>,
    cells: &mut BTreeMap<Name, Vec<u64>>,
    memory: &Name,
    bits: u64,
    lines: &[ObjectLine],
) -> Result<(), LinkFault>
    requires short { HasShort values }
    requires ready { IsReady (Cell bits) (map object_line_tree lines.now) }
    ensures added { OnOk result ((m : List ℕ) → cells_of cells.new m
        ≡ behind_if (bytes_eq m memory.now) (fixed (symbols_of values.entry) (length (cells_of cells.old memory.now)) bits (map object_line_tree lines.now) ∷ []) (cells_of cells.old m)) }
    ensures fits { OnOk result (cell_fault number (symbols_of values.entry) (Some memory.now) (length (cells_of cells.old memory.now)) (cell_before bits (map object_line_tree lines.now)) ≡ None) }
    ensures fault { IfErr result (λ f. (f ≡ faults.NoMemory) ⊎ (cell_fault number (symbols_of values.entry) (Some memory.now) (length (cells_of cells.old memory.now)) (cell_before bits (map object_line_tree lines.now)) ≡ Some f)) }
{
    let address = cell_count(cells, memory);
    match cell_value(values, address, bits, lines) {
        Ok(value) => push_cell(alloc, cells, memory, value).map_err(|_| LinkFault::NoMemory),
        Err(misfit) => Err(range_fault(number, memory, address, misfit)),
    }
}

// Adds the cells of a line, before these lines, to a memory.
fn fill_line(
    alloc: Global,
    number: u32,
    values: Values<'_>,
    cells: &mut BTreeMap<Name, Vec<u64>>,
    memory: &Name,
    line: &ObjectLine,
    lines: &[ObjectLine],
) -> Result<(), LinkFault>
    requires short { HasShort values }
    requires ready { IsReady (object_line_tree line.now) (map object_line_tree lines.now) }
    ensures added { OnOk result ((m : List ℕ) → cells_of cells.new m
        ≡ behind_if (bytes_eq m memory.now) (line_cells (symbols_of values.entry) (length (cells_of cells.old memory.now)) (object_line_tree line.now) (map object_line_tree lines.now)) (cells_of cells.old m)) }
    ensures fits { OnOk result (line_fault number (symbols_of values.entry) (Some memory.now) (length (cells_of cells.old memory.now)) (object_line_tree line.now) (map object_line_tree lines.now) ≡ None) }
    ensures fault { IfErr result (λ f. (f ≡ faults.NoMemory) ⊎ (line_fault number (symbols_of values.entry) (Some memory.now) (length (cells_of cells.old memory.now)) (object_line_tree line.now) (map object_line_tree lines.now) ≡ Some f)) }
{
    match line {
        ObjectLine::Space(count) => {
            push_zeros(alloc, cells, memory, *count).map_err(|_| LinkFault::NoMemory)
        }
        ObjectLine::Cell(bits) => add_cell(alloc, number, values, cells, memory, *bits, lines),
        _ => Ok(()),
    }
}

// Adds the cells of a line, before these lines, to the memory that is entered.
fn fill_here(
    alloc: Global,
    number: u32,
    values: Values<'_>,
    cells: &mut BTreeMap<Name, Vec<u64>>,
    here: Option<&Name>,
    line: &ObjectLine,
    lines: &[ObjectLine],
) -> Result<(), LinkFault>
    requires short { HasShort values }
    requires ready { IsReady (object_line_tree line.now) (map object_line_tree lines.now) }
    ensures added { OnOk result ((m : List ℕ) → cells_of cells.new m
        ≡ behind_if (is_here m (option_copied here.entry)) (line_cells (symbols_of values.entry) (address (option_copied here.entry) (sizes_of cells.old)) (object_line_tree line.now) (map object_line_tree lines.now)) (cells_of cells.old m)) }
    ensures fits { OnOk result (line_fault number (symbols_of values.entry) (option_copied here.entry) (address (option_copied here.entry) (sizes_of cells.old)) (object_line_tree line.now) (map object_line_tree lines.now) ≡ None) }
    ensures fault { IfErr result (λ f. (f ≡ faults.NoMemory) ⊎ (line_fault number (symbols_of values.entry) (option_copied here.entry) (address (option_copied here.entry) (sizes_of cells.old)) (object_line_tree line.now) (map object_line_tree lines.now) ≡ Some f)) }
{
    match here {
        None => Ok(()),
        Some(memory) => fill_line(alloc, number, values, cells, memory, line, lines),
    }
}

// The first line and those behind it.
fn first_line(lines: &[ObjectLine]) -> Option<(&ObjectLine, &[ObjectLine])>
    ensures { MatchOption result (lines.now ≡ []) (λ x. lines.now ≡ x.0.now ∷ x.1.now) }
{
    match lines {
        [] => None,
        [line, rest @ ..] => Some((line, rest)),
    }
}

// Adds the cells of an object's lines to their memories.
fn fill_lines(
    alloc: Global,
    number: u32,
    values: Values<'_>,
    cells: &mut BTreeMap<Name, Vec<u64>>,
    lines: &[ObjectLine],
) -> Result<(), LinkFault>
    requires short { HasShort values }
    requires lines { AreLines (map object_line_tree lines.now) }
    ensures added { OnOk result ((m : List ℕ) → cells_of cells.new m
        ≡ cells_of cells.old m ++ cells_in object_sense (symbols_of values.entry) m false (sizes_of cells.old m) (entries_of (map object_line_tree lines.now))) }
    ensures fits { OnOk result (range_in number (symbols_of values.entry) (sizes_of cells.old) None (entries_of (map object_line_tree lines.now)) ≡ None) }
    ensures fault { IfErr result (λ f. (f ≡ faults.NoMemory) ⊎ (range_in number (symbols_of values.entry) (sizes_of cells.old) None (entries_of (map object_line_tree lines.now)) ≡ Some f)) }
{
    let mut here = None;
    let mut left = lines;
    'each: while let Some((line, rest)) = first_line(left) {
        fill_here(alloc, number, values, cells, here, line, rest)?;
        here = line_enters(here, line);
        left = rest;
    }
    Ok(())
}

// Adds the cells of an object's lines to their memories, where it has this number. Its cells are counted.
fn fill_part(
    alloc: Global,
    number: u32,
    others: &BTreeMap<Name, i128>,
    counts: &mut BTreeMap<Name, u64>,
    cells: &mut BTreeMap<Name, Vec<u64>>,
    lines: &[ObjectLine],
) -> Result<(), LinkFault>
    requires others { AreShort others.now }
    requires lines { AreLines (map object_line_tree lines.now) }
    requires counted { (m : List ℕ) → count_of counts.old m ≡ sizes_of cells.old m }
    ensures counted { OnOk result ((m : List ℕ) → count_of counts.new m ≡ counts_after (count_of counts.old) None (entries_of (map object_line_tree lines.now)) m) }
    ensures sized { OnOk result ((m : List ℕ) → count_of counts.new m ≡ sizes_of cells.new m) }
    ensures added { (shared : List (List ℕ × ℤ)) → ((n : List ℕ) → value_of others.now n ≡ lookup (bytes_eq n) shared)
        → OnOk result ((m : List ℕ) → cells_of cells.new m ≡ cells_of cells.old m ++ part_cells object_sense shared m (count_of counts.old, entries_of (map object_line_tree lines.now))) }
    ensures fits { (shared : List (List ℕ × ℤ)) → ((n : List ℕ) → value_of others.now n ≡ lookup (bytes_eq n) shared)
        → OnOk result (part_fault number shared (count_of counts.old, entries_of (map object_line_tree lines.now)) ≡ None) }
    ensures fault { (shared : List (List ℕ × ℤ)) → ((n : List ℕ) → value_of others.now n ≡ lookup (bytes_eq n) shared)
        → IfErr result (λ f. (f ≡ faults.NoMemory) ⊎ (part_fault number shared (count_of counts.old, entries_of (map object_line_tree lines.now)) ≡ Some f)) }
{
    let Ok(own) = line_values(alloc, counts, lines) else {
        return Err(LinkFault::NoMemory);
    };
    let values = Values { own: &own, others };
    fill_lines(alloc, number, values, cells, lines)?;
    Ok(())
}

// Adds the cells of an object, which has this number, to their memories. Its cells are counted.
fn fill_object(
    alloc: Global,
    number: u32,
    others: &BTreeMap<Name, i128>,
    counts: &mut BTreeMap<Name, u64>,
    cells: &mut BTreeMap<Name, Vec<u64>>,
    object: &Object,
) -> Result<(), LinkFault>
    requires others { AreShort others.now }
    requires object { IsObject (object_tree object.now) }
    requires counted { (m : List ℕ) → count_of counts.old m ≡ sizes_of cells.old m }
    ensures counted { OnOk result ((m : List ℕ) → count_of counts.new m ≡ counts_after (count_of counts.old) None (entries_of (object_tree object.now).lines) m) }
    ensures sized { OnOk result ((m : List ℕ) → count_of counts.new m ≡ sizes_of cells.new m) }
    ensures added { (shared : List (List ℕ × ℤ)) → ((n : List ℕ) → value_of others.now n ≡ lookup (bytes_eq n) shared)
        → OnOk result ((m : List ℕ) → cells_of cells.new m ≡ cells_of cells.old m ++ part_cells object_sense shared m (count_of counts.old, entries_of (object_tree object.now).lines)) }
    ensures fits { (shared : List (List ℕ × ℤ)) → ((n : List ℕ) → value_of others.now n ≡ lookup (bytes_eq n) shared)
        → OnOk result (part_fault number shared (count_of counts.old, entries_of (object_tree object.now).lines) ≡ None) }
    ensures fault { (shared : List (List ℕ × ℤ)) → ((n : List ℕ) → value_of others.now n ≡ lookup (bytes_eq n) shared)
        → IfErr result (λ f. (f ≡ faults.NoMemory) ⊎ (part_fault number shared (count_of counts.old, entries_of (object_tree object.now).lines) ≡ Some f)) }
{
    fill_part(alloc, number, others, counts, cells, &object.lines)
}

// Adds the cells of all objects to their memories.
fn fill_all(
    alloc: Global,
    others: &BTreeMap<Name, i128>,
    objects: &[Object],
) -> Result<BTreeMap<Name, Vec<u64>>, LinkFault>
    requires others { AreShort others.now }
    requires objects { All (λ o. IsObject (object_tree o)) objects.now }
    requires few { length objects.now < 2 ^ 32 }
    ensures added { (shared : List (List ℕ × ℤ)) → ((n : List ℕ) → value_of others.now n ≡ lookup (bytes_eq n) shared)
        → IfOk result (λ cells. (m : List ℕ) → cells_of cells m ≡ flat_map (part_cells object_sense shared m) (with_counts no_cells (parts_of (map object_tree objects.now)))) }
    ensures fits { (shared : List (List ℕ × ℤ)) → ((n : List ℕ) → value_of others.now n ≡ lookup (bytes_eq n) shared)
        → OnOk result (range_from 1 shared (with_counts no_cells (parts_of (map object_tree objects.now))) ≡ None) }
    ensures fault { (shared : List (List ℕ × ℤ)) → ((n : List ℕ) → value_of others.now n ≡ lookup (bytes_eq n) shared)
        → IfErr result (λ f. (f ≡ faults.NoMemory) ⊎ (range_from 1 shared (with_counts no_cells (parts_of (map object_tree objects.now))) ≡ Some f)) }
{
    let mut counts = BTreeMap::new(alloc);
    let mut cells = BTreeMap::new(alloc);
    let mut number = 0;
    'each: for object in objects {
        number += 1;
        fill_object(alloc, number, others, &mut counts, &mut cells, object)?;
    }
    Ok(cells)
}

/// The cells of all objects, by their memories, or the first value that doesn't fit its bits.
pub(crate) fn fill_objects(
    alloc: Global,
    objects: &[Object],
) -> Result<BTreeMap<Name, Vec<u64>>, LinkFault>
    requires objects { All (λ o. IsObject (object_tree o)) objects.now }
    requires few { length objects.now < 2 ^ 32 }
    ensures added { IfOk result (λ cells. (m : List ℕ) → cells_of cells m ≡ all_cells (parts_of (map object_tree objects.now)) m) }
    ensures fits { OnOk result (out_of_range (parts_of (map object_tree objects.now)) ≡ None) }
    ensures fault { IfErr result (λ f. (f ≡ faults.NoMemory) ⊎ (out_of_range (parts_of (map object_tree objects.now)) ≡ Some f)) }
{
    let Ok(others) = shared_values(alloc, objects) else {
        return Err(LinkFault::NoMemory);
    };
    fill_all(alloc, &others, objects)
}
