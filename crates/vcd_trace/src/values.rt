// The lines of declarations, of times and of values.
ghost use Rattle.std.specs.Prelude.{◌≡◌, ◌<◌, ◌+◌, ◌++◌, codes, length, OnOk};
ghost use Rattle.std.specs.List.{flat_map, zip, enumerate_from};
ghost use Rattle.lisa_io.specs.Contents.{Puts};
ghost use Rattle.vcd_trace.specs.VcdText.{binary, item_code, declaration_line, declarations_text, value_change, value_line, value_lines, changed_line, changed_values, time_line, first_values};

use crate::numbers::{put_binary, put_decimal};
use lisa_engine::{Engine, Item};
use lisa_io::{Failed, Sink, put_all};

fn put_code<O: Sink>(out: &mut O, place: usize) -> Result<(), Failed>
    requires { place < 8192 }
    ensures { Puts (O.written out.old) (O.written out.new) (O.faults out.old) (O.faults out.new) result (item_code place) }
{
    if place < 94 {
        return put_all(out, &[33 + place as u8]);
    }
    put_all(out, &[33 + (place % 94) as u8, 33 + (place / 94) as u8])
}

// What stands behind a word: a blank, the code, and what ends the line.
fn put_code_end<O: Sink>(out: &mut O, place: usize) -> Result<(), Failed>
    requires { place < 8192 }
    ensures { Puts (O.written out.old) (O.written out.new) (O.faults out.old) (O.faults out.new) result (item_code place ++ codes "\n") }
{
    put_code(out, place)?;
    put_all(out, b"\n")
}

fn put_name_end<O: Sink>(out: &mut O, name: &[u8]) -> Result<(), Failed>
    ensures { Puts (O.written out.old) (O.written out.new) (O.faults out.old) (O.faults out.new) result (codes " " ++ (name.now ++ codes " $end\n")) }
{
    put_all(out, b" ")?;
    put_all(out, name)?;
    put_all(out, b" $end\n")
}

fn put_declaration<O: Sink>(out: &mut O, place: usize, item: &Item) -> Result<(), Failed>
    requires { place < 8192 }
    ensures { Puts (O.written out.old) (O.written out.new) (O.faults out.old) (O.faults out.new) result (declaration_line (place, item.now)) }
{
    put_all(out, b"$var reg ")?;
    put_decimal(out, item.width as u64)?;
    put_all(out, b" ")?;
    put_code(out, place)?;
    put_name_end(out, item.name.as_bytes())
}

fn put_declared_items<O: Sink>(out: &mut O, items: &[Item]) -> Result<(), Failed>
    requires { length items.now < 8193 }
    ensures { Puts (O.written out.old) (O.written out.new) (O.faults out.old) (O.faults out.new) result (flat_map declaration_line (enumerate_from 0 items.now)) }
{
    for (place, item) in items.iter().enumerate() {
        put_declaration(out, place, item)?;
    }
    Ok(())
}

/// Appends what stands before the first time.
pub(crate) fn put_declarations<O: Sink>(out: &mut O, items: &[Item]) -> Result<(), Failed>
    requires { length items.now < 8193 }
    ensures { Puts (O.written out.old) (O.written out.new) (O.faults out.old) (O.faults out.new) result (declarations_text items.now) }
{
    put_all(out, b"$timescale 1 ns $end\n$scope module machine $end\n")?;
    put_declared_items(out, items)?;
    put_all(out, b"$upscope $end\n$enddefinitions $end\n")
}

pub(crate) fn put_time<O: Sink>(out: &mut O, time: u32) -> Result<(), Failed>
    ensures { Puts (O.written out.old) (O.written out.new) (O.faults out.old) (O.faults out.new) result (time_line time) }
{
    put_all(out, b"#")?;
    put_decimal(out, time as u64)?;
    put_all(out, b"\n")
}

// A wider value: its digits, a blank and the code.
fn put_wide_value<O: Sink>(out: &mut O, place: usize, value: u64) -> Result<(), Failed>
    requires { place < 8192 }
    ensures { Puts (O.written out.old) (O.written out.new) (O.faults out.old) (O.faults out.new) result (codes "b" ++ (binary value ++ (codes " " ++ (item_code place ++ codes "\n")))) }
{
    put_all(out, b"b")?;
    put_binary(out, value)?;
    put_all(out, b" ")?;
    put_code_end(out, place)
}

fn put_value<O: Sink>(out: &mut O, width: u32, place: usize, value: u64) -> Result<(), Failed>
    requires { place < 8192 }
    ensures { Puts (O.written out.old) (O.written out.new) (O.faults out.old) (O.faults out.new) result (value_change width place value) }
{
    if width != 1 {
        return put_wide_value(out, place, value);
    }
    put_binary(out, value)?;
    put_code_end(out, place)
}

// A line for each item.
fn put_values<E: Engine, O: Sink>(engine: &E, out: &mut O) -> Result<(), Failed>
    requires { length (E.machine engine.now).items < 8193 }
    ensures { Puts (O.written out.old) (O.written out.new) (O.faults out.old) (O.faults out.new) result (value_lines (E.machine engine.now).items (E.present engine.now).items) }
{
    for (place, item) in engine.items().iter().enumerate() {
        put_value(out, item.width, place, engine.value(place))?;
    }
    Ok(())
}

/// Appends the first time with all values.
pub(crate) fn put_first_values<E: Engine, O: Sink>(engine: &E, out: &mut O) -> Result<(), Failed>
    requires { length (E.machine engine.now).items < 8193 }
    ensures { Puts (O.written out.old) (O.written out.new) (O.faults out.old) (O.faults out.new) result (first_values (E.machine engine.now).items (E.present engine.now).items) }
{
    put_time(out, 0)?;
    put_all(out, b"$dumpvars\n")?;
    put_values(engine, out)?;
    put_all(out, b"$end\n")
}

fn put_changed_value<O: Sink>(
    out: &mut O,
    width: u32,
    place: usize,
    before: u64,
    now: u64,
) -> Result<(), Failed>
    requires { place < 8192 }
    ensures { Puts (O.written out.old) (O.written out.new) (O.faults out.old) (O.faults out.new) result (changed_line width place before now) }
{
    if before == now {
        return Ok(());
    }
    put_value(out, width, place, now)
}

/// Appends the values that changed since `before`, which then holds the values now.
pub(crate) fn put_changed_values<E: Engine, O: Sink>(
    engine: &E,
    before: &mut [u64],
    out: &mut O,
) -> Result<(), Failed>
    requires few { length (E.machine engine.now).items < 8193 }
    requires row { length before.old ≡ length (E.machine engine.now).items }
    ensures puts { Puts (O.written out.old) (O.written out.new) (O.faults out.old) (O.faults out.new) result
        (changed_values (E.machine engine.now).items before.old (E.present engine.now).items) }
    ensures row { OnOk result (before.new ≡ (E.present engine.now).items) }
{
    for (place, item) in engine.items().iter().enumerate() {
        let now = engine.value(place);
        put_changed_value(out, item.width, place, before[place], now)?;
        before[place] = now;
    }
    Ok(())
}
