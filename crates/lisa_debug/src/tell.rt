// What a session tells.
ghost use Rattle.std.specs.Prelude.{◌≡◌, ◌<◌, ◌++◌, List, ℕ, Bool, [], length, codes, slice_index, slice_index_or, decimal as decimal_digits};
ghost use Rattle.std.specs.List.{flat_map};
ghost use Rattle.lisa_io.specs.Contents.{Puts};
ghost use Rattle.lisa_engine.specs.State.{State, cells_of};
ghost use Rattle.lisa_engine.specs.Text.{newline, value_text, cell_text};
ghost use Rattle.lisa_engine.specs.declared.parts.ArrayItem.{ArrayItem};
ghost use Rattle.lisa_debug.specs.Answers.{met_text, met_line, item_name, array_name, list_line, refusal_text};

use crate::command::Refusal;
use lisa_engine::{ArrayItem, Engine, Item, put_cell_text, put_item_line};
use lisa_io::{Failed, Sink, put_all};
use lisa_words::decimal;

pub(crate) fn put_refusal<O: Sink>(out: &mut O, refusal: Refusal) -> Result<(), Failed>
    ensures { Puts (O.written out.old) (O.written out.new) (O.faults out.old) (O.faults out.new) result (refusal_text refusal) }
{
    match refusal {
        Refusal::BadCommand => put_all(out, b"refused 1 BadCommand\n"),
        Refusal::UnknownName => put_all(out, b"refused 2 UnknownName\n"),
        Refusal::EdgeLimit => put_all(out, b"refused 3 EdgeLimit\n"),
        Refusal::NoEarlierEdge => put_all(out, b"refused 4 NoEarlierEdge\n"),
    }
}

fn put_decimal<O: Sink>(out: &mut O, value: u64) -> Result<(), Failed>
    ensures { Puts (O.written out.old) (O.written out.new) (O.faults out.old) (O.faults out.new) result (decimal_digits value) }
{
    let mut digits = [0; 20];
    let count = decimal(value, &mut digits);
    put_all(out, &digits[..count])
}

fn put_met<O: Sink>(out: &mut O, met: bool) -> Result<(), Failed>
    ensures { Puts (O.written out.old) (O.written out.new) (O.faults out.old) (O.faults out.new) result (met_text met) }
{
    if met {
        put_all(out, b" met\n")
    } else {
        put_all(out, b" not met\n")
    }
}

// The edge, and whether the value was met.
pub(crate) fn put_met_line<O: Sink>(out: &mut O, edge: u32, met: bool) -> Result<(), Failed>
    ensures { Puts (O.written out.old) (O.written out.new) (O.faults out.old) (O.faults out.new) result (met_line edge met) }
{
    put_all(out, b"edge ")?;
    put_decimal(out, edge as u64)?;
    put_met(out, met)
}

// A name, a blank and the width.
fn put_list_line<O: Sink>(out: &mut O, item: &Item) -> Result<(), Failed>
    ensures { Puts (O.written out.old) (O.written out.new) (O.faults out.old) (O.faults out.new) result (list_line item.now) }
{
    put_all(out, item.name.as_bytes())?;
    put_all(out, b" ")?;
    put_decimal(out, item.width as u64)?;
    put_all(out, b"\n")
}

pub(crate) fn put_list<O: Sink>(out: &mut O, items: &[Item]) -> Result<(), Failed>
    ensures { Puts (O.written out.old) (O.written out.new) (O.faults out.old) (O.faults out.new) result (flat_map list_line items.now) }
{
    for item in items {
        put_list_line(out, item)?;
    }
    Ok(())
}

// The name of the item at a place.
fn name_of_item(items: &[Item], place: usize) -> &[u8]
    ensures { result.now ≡ item_name items.now place }
{
    match items.get(place) {
        Some(item) => item.name.as_bytes(),
        None => b"",
    }
}

// The name of the array at a place.
fn name_of_array(arrays: &[ArrayItem], place: usize) -> &[u8]
    ensures { result.now ≡ array_name arrays.now place }
{
    match arrays.get(place) {
        Some(array) => array.name.as_bytes(),
        None => b"",
    }
}

// The line of an item.
pub(crate) fn put_item<E: Engine, O: Sink>(
    out: &mut O,
    engine: &E,
    item: usize,
) -> Result<(), Failed>
    requires { item < length (E.machine engine.now).items }
    ensures { Puts (O.written out.old) (O.written out.new) (O.faults out.old) (O.faults out.new) result
        (item_name (E.machine engine.now).items item ++ value_text (slice_index (E.present engine.now).items item)) }
{
    put_item_line(out, name_of_item(engine.items(), item), engine.value(item))
}

// The line of a cell, also where its value is 0.
pub(crate) fn put_cell<E: Engine, O: Sink>(
    out: &mut O,
    engine: &E,
    array: usize,
    index: usize,
) -> Result<(), Failed>
    requires array { array < length (E.machine engine.now).arrays }
    requires index { (a : ArrayItem) → index < (slice_index_or (E.machine engine.now).arrays array a).depth }
    ensures { Puts (O.written out.old) (O.written out.new) (O.faults out.old) (O.faults out.new) result
        (cell_text (array_name (E.machine engine.now).arrays array) index (slice_index (cells_of (E.present engine.now) array) index)) }
{
    let name = name_of_array(engine.arrays(), array);
    put_cell_text(out, name, index, engine.cell(array, index))
}
