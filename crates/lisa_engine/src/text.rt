// The text of a state.
ghost use Rattle.std.specs.Prelude.{◌≡◌, ◌≢◌, ◌<◌, ◌++◌, length, take, codes, decimal as decimal_digits};
ghost use Rattle.lisa_io.specs.Contents.{Puts};
ghost use Rattle.std.specs.List.{flat_map, enumerate_from, zip};
ghost use Rattle.lisa_engine.specs.State.{cells_of};
ghost use Rattle.lisa_engine.specs.Text.{value_text, edge_line, item_lines, cell_text, cell_line, array_lines, state_text};

use crate::engine::Engine;
use lisa_io::{Failed, Sink, put_all};
use lisa_words::{decimal, hex};

// One text, and then another.
fn put_both<O: Sink>(out: &mut O, first: &[u8], second: &[u8]) -> Result<(), Failed>
    ensures { Puts (O.written out.old) (O.written out.new) (O.faults out.old) (O.faults out.new) result (first.now ++ second.now) }
{
    put_all(out, first)?;
    put_all(out, second)
}

fn put_decimal<O: Sink>(out: &mut O, value: u64) -> Result<(), Failed>
    ensures { Puts (O.written out.old) (O.written out.new) (O.faults out.old) (O.faults out.new) result (decimal_digits value) }
{
    let mut digits = [0; 20];
    let count = decimal(value, &mut digits);
    put_all(out, &digits[..count])
}

fn put_hex_line<O: Sink>(out: &mut O, value: u64) -> Result<(), Failed>
    ensures { Puts (O.written out.old) (O.written out.new) (O.faults out.old) (O.faults out.new) result (value_text value) }
{
    let mut digits = [0; 16];
    let count = hex(value, &mut digits);
    put_all(out, b" 0x")?;
    put_both(out, &digits[..count], b"\n")
}

/// Appends the line of an edge's number; after a failure, a prefix of it.
pub fn put_edge_line<O: Sink>(out: &mut O, edge: u32) -> Result<(), Failed>
    ensures { Puts (O.written out.old) (O.written out.new) (O.faults out.old) (O.faults out.new) result (edge_line edge) }
{
    put_all(out, b"edge ")?;
    put_decimal(out, edge as u64)?;
    put_all(out, b"\n")
}

/// Appends the line of a name and its value; after a failure, a prefix of it.
pub fn put_item_line<O: Sink>(out: &mut O, name: &[u8], value: u64) -> Result<(), Failed>
    ensures { Puts (O.written out.old) (O.written out.new) (O.faults out.old) (O.faults out.new) result (name.now ++ value_text value) }
{
    put_all(out, name)?;
    put_hex_line(out, value)
}

fn put_index<O: Sink>(out: &mut O, index: usize) -> Result<(), Failed>
    ensures { Puts (O.written out.old) (O.written out.new) (O.faults out.old) (O.faults out.new) result (codes "[" ++ (decimal_digits index ++ codes "]")) }
{
    put_all(out, b"[")?;
    put_decimal(out, index as u64)?;
    put_all(out, b"]")
}

/// Appends the line of a cell, also where its value is 0; after a failure, a prefix of it.
pub fn put_cell_text<O: Sink>(
    out: &mut O,
    name: &[u8],
    index: usize,
    value: u64,
) -> Result<(), Failed>
    ensures { Puts (O.written out.old) (O.written out.new) (O.faults out.old) (O.faults out.new) result (cell_text name.now index value) }
{
    put_all(out, name)?;
    put_index(out, index)?;
    put_hex_line(out, value)
}

fn put_cell_line<O: Sink>(out: &mut O, name: &[u8], index: usize, value: u64) -> Result<(), Failed>
    ensures { Puts (O.written out.old) (O.written out.new) (O.faults out.old) (O.faults out.new) result (cell_line name.now (index, value)) }
{
    if value == 0 {
        return Ok(());
    }
    put_cell_text(out, name, index, value)
}

// A line for each item.
fn put_items<E: Engine, O: Sink>(engine: &E, out: &mut O) -> Result<(), Failed>
    ensures { Puts (O.written out.old) (O.written out.new) (O.faults out.old) (O.faults out.new) result (item_lines (E.machine engine.now).items (E.present engine.now).items) }
{
    for (place, item) in engine.items().iter().enumerate() {
        put_item_line(out, item.name.as_bytes(), engine.value(place))?;
    }
    Ok(())
}

// A line for each cell of an array that isn't 0.
fn put_cells<E: Engine, O: Sink>(
    engine: &E,
    array: usize,
    name: &[u8],
    depth: usize,
    out: &mut O,
) -> Result<(), Failed>
    requires array { array < length (E.machine engine.now).arrays }
    requires depth { depth ≡ length (cells_of (E.present engine.now) array) }
    ensures { Puts (O.written out.old) (O.written out.new) (O.faults out.old) (O.faults out.new) result (flat_map (cell_line name.now) (enumerate_from 0 (cells_of (E.present engine.now) array))) }
{
    for index in 0..depth {
        put_cell_line(out, name, index, engine.cell(array, index))?;
    }
    Ok(())
}

// The lines of all arrays.
fn put_arrays<E: Engine, O: Sink>(engine: &E, out: &mut O) -> Result<(), Failed>
    ensures { Puts (O.written out.old) (O.written out.new) (O.faults out.old) (O.faults out.new) result (flat_map array_lines (zip (E.machine engine.now).arrays (E.present engine.now).cells)) }
{
    for (place, array) in engine.arrays().iter().enumerate() {
        put_cells(
            engine,
            place,
            array.name.as_bytes(),
            array.depth as usize,
            out,
        )?;
    }
    Ok(())
}

/// Appends the text of the engine's state after an edge; after a failure, a prefix of it.
pub fn write_state<E: Engine, O: Sink>(engine: &E, edge: u32, out: &mut O) -> Result<(), Failed>
    ensures { Puts (O.written out.old) (O.written out.new) (O.faults out.old) (O.faults out.new) result (state_text (E.machine engine.now).items (E.machine engine.now).arrays edge (E.present engine.now)) }
{
    put_edge_line(out, edge)?;
    put_items(engine, out)?;
    put_arrays(engine, out)
}
