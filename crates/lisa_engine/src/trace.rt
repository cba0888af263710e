// Traces: the text of the first state, and then what each edge changed.
ghost use Rattle.std.specs.Prelude.{◌≡◌, ◌<◌, ◌≤◌, ◌+◌, ◌++◌, [], ◌∷◌, ℕ, List, OnOk, IfOk, All, find, length};
ghost use Rattle.std.specs.List.{flat_map, zip, enumerate_from};
ghost use Rattle.lisa_io.specs.Contents.{Puts};
ghost use Rattle.lisa_engine.specs.State.{cells_of};
ghost use Rattle.lisa_engine.specs.Shape.{IsFitting, AreEntries};
ghost use Rattle.lisa_engine.specs.PinValues.{IsFor};
ghost use Rattle.lisa_engine.specs.Machines.{course_of, state_at};
ghost use Rattle.lisa_engine.specs.Touches.{IsPlaced, put_back};
ghost use Rattle.lisa_engine.specs.Traces.{PutsUnless};
ghost use Rattle.lisa_engine.specs.Changes.{is_at, touched_line, touched_array, IsRow, IsCut};
ghost use Rattle.lisa_engine.specs.Text.{changed_line, changed_cell, changed_items, change_text, changes_text, trace_text};
ghost use Rattle.lisa_engine.specs.declared.parts.ArrayItem.{ArrayItem};

use crate::engine::Engine;
use crate::parts::{Item, Touch};
use crate::schedule::Schedule;
use crate::text::{put_cell_text, put_edge_line, put_item_line, write_state};
use lisa_io::{Failed, Sink};
use std::alloc::{AllocError, Global};
use thiserror::Error;

/// Why a trace ended early.
#[derive(Clone, Copy, Debug, PartialEq, Eq, Error)]
pub enum TraceEnd {
    /// The output failed.
    #[error("write fault")]
    WriteFault,
    /// Memory was wanted and not given.
    #[error("out of memory")]
    NoMemory,
}

// The line of an item whose value changed.
fn put_changed_line<O: Sink>(out: &mut O, item: &Item, before: u64, now: u64) -> Result<(), Failed>
    ensures { Puts (O.written out.old) (O.written out.new) (O.faults out.old) (O.faults out.new) result (changed_line (item.now, (before, now))) }
{
    if before == now {
        return Ok(());
    }
    put_item_line(out, item.name.as_bytes(), now)
}

// The line of a cell whose value changed.
fn put_changed_cell<O: Sink>(
    out: &mut O,
    name: &[u8],
    index: usize,
    before: u64,
    now: u64,
) -> Result<(), Failed>
    ensures { Puts (O.written out.old) (O.written out.new) (O.faults out.old) (O.faults out.new) result (changed_cell name.now (index, (before, now))) }
{
    if before == now {
        return Ok(());
    }
    put_cell_text(out, name, index, now)
}

// The lines of the items whose values changed since `before`, which then holds the values now.
fn put_changed_items<E: Engine, O: Sink>(
    engine: &E,
    before: &mut [u64],
    out: &mut O,
) -> Result<(), Failed>
    requires { length before.old ≡ length (E.machine engine.now).items }
    ensures puts { Puts (O.written out.old) (O.written out.new) (O.faults out.old) (O.faults out.new) result
        (changed_items (E.machine engine.now).items before.old (E.present engine.now).items) }
    ensures row { OnOk result (before.new ≡ (E.present engine.now).items) }
{
    for (place, item) in engine.items().iter().enumerate() {
        let now = engine.value(place);
        put_changed_line(out, item, before[place], now)?;
        before[place] = now;
    }
    Ok(())
}

// Puts the touches into the row by array and index, those of one cell as they came.
fn sort_touches(row: &mut Vec<Touch>, touches: &[Touch]) -> Result<(), AllocError>
    ensures sorted { OnOk result (IsRow row.new.items) }
    ensures same { OnOk result ((array index : ℕ) → find (is_at array index) row.new.items ≡ find (is_at array index) touches.now) }
    ensures places { (arrays : List ArrayItem) → All (IsPlaced arrays) touches.now → OnOk result (All (IsPlaced arrays) row.new.items) }
{
    row.clear();
    row.extend_from_slice(touches)?;
    row.sort_by_key(|touch| (touch.array, touch.index))
}

// The lines of the cells of an array that changed, and the place of the first touch of a later array. Only the first touch
// of a cell counts: the later ones stand behind it.
fn put_changed_array<E: Engine, O: Sink>(
    engine: &E,
    array: usize,
    name: &[u8],
    row: &[Touch],
    from: usize,
    out: &mut O,
) -> Result<usize, Failed>
    requires array { array < length (E.machine engine.now).arrays }
    requires places { All (IsPlaced (E.machine engine.now).arrays) row.now }
    requires sorted { IsRow row.now }
    requires from { IsCut row.now array from }
    ensures puts { Puts (O.written out.old) (O.written out.new) (O.faults out.old) (O.faults out.new) result
        (flat_map (touched_line row.now name.now array) (enumerate_from 0 (cells_of (E.present engine.now) array))) }
    ensures cut { IfOk result (IsCut row.now (array + 1)) }
{
    let mut next = 0;
    for place in from..row.len() {
        let touch = row[place];
        if touch.array as usize != array {
            return Ok(place);
        }
        let index = touch.index as usize;
        if next <= index {
            put_changed_cell(out, name, index, touch.before, engine.cell(array, index))?;
            next = index + 1;
        }
    }
    Ok(row.len())
}

// The lines of all cells that changed.
fn put_changed_arrays<E: Engine, O: Sink>(
    engine: &E,
    row: &[Touch],
    out: &mut O,
) -> Result<(), Failed>
    requires places { All (IsPlaced (E.machine engine.now).arrays) row.now }
    requires sorted { IsRow row.now }
    ensures { Puts (O.written out.old) (O.written out.new) (O.faults out.old) (O.faults out.new) result
        (flat_map (touched_array row.now) (enumerate_from 0 (zip (E.machine engine.now).arrays (E.present engine.now).cells))) }
{
    let mut from = 0;
    for (place, array) in engine.arrays().iter().enumerate() {
        from = put_changed_array(engine, place, array.name.as_bytes(), row, from, out)?;
    }
    Ok(())
}

// The line of an edge, and those of the items and the cells that it changed. `before` holds the items before it, and then
// those after it; `row` its touches by array and index.
fn put_changes<E: Engine, O: Sink>(
    engine: &E,
    edge: u32,
    before: &mut [u64],
    row: &[Touch],
    out: &mut O,
) -> Result<(), Failed>
    requires items { length before.old ≡ length (E.machine engine.now).items }
    requires touches { All (IsPlaced (E.machine engine.now).arrays) (E.touch_list engine.now) }
    requires places { All (IsPlaced (E.machine engine.now).arrays) row.now }
    requires sorted { IsRow row.now }
    requires same { (array index : ℕ) → find (is_at array index) row.now ≡ find (is_at array index) (E.touch_list engine.now) }
    ensures puts { Puts (O.written out.old) (O.written out.new) (O.faults out.old) (O.faults out.new) result
        (change_text (E.machine engine.now).items (E.machine engine.now).arrays edge
        (record { items = before.old; cells = put_back (E.touch_list engine.now) (E.present engine.now).cells }) (E.present engine.now)) }
    ensures row { OnOk result (before.new ≡ (E.present engine.now).items) }
{
    put_edge_line(out, edge)?;
    put_changed_items(engine, before, out)?;
    put_changed_arrays(engine, row, out)
}

impl From<AllocError> for TraceEnd {
    ghost use Rattle.lisa_engine.specs.declared.trace.TraceEnd.TheVariants.{NoMemory};

    ghost from_gives = { λ _ end. end ≡ NoMemory };

    fn from(_error: AllocError) -> TraceEnd {
        TraceEnd::NoMemory
    }
}

impl From<Failed> for TraceEnd {
    ghost use Rattle.lisa_engine.specs.declared.trace.TraceEnd.TheVariants.{WriteFault};

    ghost from_gives = { λ _ end. end ≡ WriteFault };

    fn from(_error: Failed) -> TraceEnd {
        TraceEnd::WriteFault
    }
}

// Makes an edge, and appends what it changed.
fn trace_edge<E: Engine, O: Sink>(
    engine: &mut E,
    edge: u32,
    pins: &[u64],
    before: &mut [u64],
    row: &mut Vec<Touch>,
    out: &mut O,
) -> Result<(), TraceEnd>
    requires pins { IsFitting (E.machine engine.old).pins pins.now }
    requires items { before.old ≡ (E.present engine.old).items }
    ensures text { PutsUnless (O.written out.old) (O.written out.new) (O.faults out.old) (O.faults out.new) result
        (change_text (E.machine engine.old).items (E.machine engine.old).arrays edge (E.present engine.old) (E.present engine.new)) }
    ensures row { OnOk result (before.new ≡ (E.present engine.new).items) }
    ensures leads { (l : List (List ℕ)) → AreEntries (E.machine engine.old).pins l → E.present engine.old ≡ (E.machine engine.old).defined l
        → E.present engine.new ≡ (E.machine engine.new).defined (l ++ pins.now ∷ []) }
    ensures machine { E.machine engine.new ≡ E.machine engine.old }
{
    engine.edge(pins);
    sort_touches(row, engine.touched())?;
    put_changes(engine, edge, before, row, out)?;
    Ok(())
}

// The values of the items.
fn item_values<E: Engine>(alloc: Global, engine: &E) -> Result<Vec<u64>, AllocError>
    ensures { IfOk result (λ v. v.items ≡ (E.present engine.now).items) }
{
    let count = engine.items().len();
    let mut values = Vec::with_capacity(alloc, count)?;
    for place in 0..count {
        values.push(engine.value(place))?;
    }
    Ok(values)
}

// Makes the edges 1 to `count`, and appends what each changed.
fn trace_edges<E: Engine, O: Sink>(
    engine: &mut E,
    schedule: &Schedule,
    count: u32,
    pins: &mut [u64],
    before: &mut [u64],
    row: &mut Vec<Touch>,
    out: &mut O,
) -> Result<(), TraceEnd>
    requires first { E.present engine.old ≡ (E.machine engine.old).defined [] }
    requires schedule { IsFor (E.machine engine.old).pins schedule.now }
    requires room { length pins.old ≡ length (E.machine engine.old).pins }
    requires items { before.old ≡ (E.present engine.old).items }
    ensures text { let state = state_at (course_of (E.machine engine.old) schedule.now) in
        PutsUnless (O.written out.old) (O.written out.new) (O.faults out.old) (O.faults out.new) result
        (changes_text (E.machine engine.old).items (E.machine engine.old).arrays state count) }
    ensures leads { OnOk result (E.present engine.new ≡ state_at (course_of (E.machine engine.old) schedule.now) count) }
    ensures machine { E.machine engine.new ≡ E.machine engine.old }
{
    pins.fill(0);
    let mut next = schedule.play(0, 0, pins);
    for made in 0..count {
        next = schedule.play(next, made + 1, pins);
        trace_edge(engine, made + 1, pins, before, row, out)?;
    }
    Ok(())
}

/// Appends the trace of the edges 1 to `count`; after a refusal, a front of it. Each edge costs as much time as there are
/// items, arrays and touches.
pub fn write_trace<E: Engine, O: Sink>(
    alloc: Global,
    engine: &mut E,
    schedule: &Schedule,
    count: u32,
    out: &mut O,
) -> Result<(), TraceEnd>
    requires first { E.present engine.old ≡ (E.machine engine.old).defined [] }
    requires schedule { IsFor (E.machine engine.old).pins schedule.now }
    ensures text { let state = state_at (course_of (E.machine engine.old) schedule.now) in
        PutsUnless (O.written out.old) (O.written out.new) (O.faults out.old) (O.faults out.new) result
        (trace_text (E.machine engine.old).items (E.machine engine.old).arrays state count) }
    ensures leads { OnOk result (E.present engine.new ≡ state_at (course_of (E.machine engine.old) schedule.now) count) }
    ensures machine { E.machine engine.new ≡ E.machine engine.old }
{
    let mut before = item_values(alloc, engine)?;
    let mut pins = vec![in alloc; 0; engine.pins().len()]?;
    let mut row = Vec::new(alloc);
    write_state(engine, 0, out)?;
    trace_edges(
        engine,
        schedule,
        count,
        &mut pins,
        &mut before,
        &mut row,
        out,
    )
}
