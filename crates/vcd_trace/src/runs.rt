// Runs of an engine as value change dumps.
ghost use Rattle.std.specs.Prelude.{◌≡◌, ◌<◌, ◌≤◌, ◌+◌, ◌++◌, [], ◌∷◌, ℕ, List, OnOk, IfOk, length};
ghost use Rattle.lisa_engine.specs.Shape.{IsFitting, AreEntries};
ghost use Rattle.lisa_engine.specs.PinValues.{IsFor};
ghost use Rattle.lisa_engine.specs.Machines.{course_of, state_at};
ghost use Rattle.lisa_engine.specs.Traces.{PutsUnless};
ghost use Rattle.lisa_io.specs.Contents.{Puts};
ghost use Rattle.vcd_trace.specs.VcdText.{time_line, changed_values, first_values, declarations_text, edges_text, vcd_text};

use crate::values::{put_changed_values, put_declarations, put_first_values, put_time};
use lisa_engine::{Engine, Schedule, TraceEnd};
use lisa_io::{Failed, Sink};
use std::alloc::{AllocError, Global};

// The time of an edge, and the values that it changed.
fn put_edge<E: Engine, O: Sink>(
    engine: &E,
    edge: u32,
    before: &mut [u64],
    out: &mut O,
) -> Result<(), Failed>
    requires few { length (E.machine engine.now).items < 8193 }
    requires row { length before.old ≡ length (E.machine engine.now).items }
    ensures puts { Puts (O.written out.old) (O.written out.new) (O.faults out.old) (O.faults out.new) result
        (time_line edge ++ changed_values (E.machine engine.now).items before.old (E.present engine.now).items) }
    ensures row { OnOk result (before.new ≡ (E.present engine.now).items) }
{
    put_time(out, edge)?;
    put_changed_values(engine, before, out)
}

// Makes an edge, and appends its time and the values that it changed.
fn write_edge<E: Engine, O: Sink>(
    engine: &mut E,
    edge: u32,
    pins: &[u64],
    before: &mut [u64],
    out: &mut O,
) -> Result<(), Failed>
    requires pins { IsFitting (E.machine engine.old).pins pins.now }
    requires few { length (E.machine engine.old).items < 8193 }
    requires items { before.old ≡ (E.present engine.old).items }
    ensures text { Puts (O.written out.old) (O.written out.new) (O.faults out.old) (O.faults out.new) result
        (time_line edge ++ changed_values (E.machine engine.old).items (E.present engine.old).items (E.present engine.new).items) }
    ensures row { OnOk result (before.new ≡ (E.present engine.new).items) }
    ensures leads { (l : List (List ℕ)) → AreEntries (E.machine engine.old).pins l → E.present engine.old ≡ (E.machine engine.old).defined l
        → E.present engine.new ≡ (E.machine engine.new).defined (l ++ pins.now ∷ []) }
    ensures machine { E.machine engine.new ≡ E.machine engine.old }
{
    engine.edge(pins);
    put_edge(engine, edge, before, out)
}

// What stands before the edges.
fn put_start<E: Engine, O: Sink>(engine: &E, out: &mut O) -> Result<(), Failed>
    requires { length (E.machine engine.now).items < 8193 }
    ensures { Puts (O.written out.old) (O.written out.new) (O.faults out.old) (O.faults out.new) result
        (declarations_text (E.machine engine.now).items ++ first_values (E.machine engine.now).items (E.present engine.now).items) }
{
    put_declarations(out, engine.items())?;
    put_first_values(engine, out)
}

// The values of the items.
fn item_values<E: Engine>(alloc: Global, engine: &E) -> Result<Vec<u64>, AllocError>
    ensures { IfOk result (λ v. v.items ≡ (E.present engine.now).items) }
{
    let count = engine.items().len();
    let mut values = Vec::with_capacity(alloc, count)?;
    for place in 0..count {
        values.push(engine.value(place))?;
    }
    Ok(values)
}

// Makes the edges 1 to `count`, and appends what each changed.
fn write_edges<E: Engine, O: Sink>(
    engine: &mut E,
    schedule: &Schedule,
    count: u32,
    pins: &mut [u64],
    before: &mut [u64],
    out: &mut O,
) -> Result<(), Failed>
    requires first { E.present engine.old ≡ (E.machine engine.old).defined [] }
    requires schedule { IsFor (E.machine engine.old).pins schedule.now }
    requires few { length (E.machine engine.old).items < 8193 }
    requires room { length pins.old ≡ length (E.machine engine.old).pins }
    requires items { before.old ≡ (E.present engine.old).items }
    ensures text { let state = state_at (course_of (E.machine engine.old) schedule.now) in
        Puts (O.written out.old) (O.written out.new) (O.faults out.old) (O.faults out.new) result
        (edges_text (E.machine engine.old).items (λ k. (state k).items) count) }
    ensures leads { OnOk result (E.present engine.new ≡ state_at (course_of (E.machine engine.old) schedule.now) count) }
    ensures within { (k : ℕ) × (k ≤ count)
        × (E.present engine.new ≡ state_at (course_of (E.machine engine.old) schedule.now) k) }
    ensures machine { E.machine engine.new ≡ E.machine engine.old }
{
    pins.fill(0);
    let mut next = schedule.play(0, 0, pins);
    for made in 0..count {
        next = schedule.play(next, made + 1, pins);
        write_edge(engine, made + 1, pins, before, out)?;
    }
    Ok(())
}

/// Appends the value change dump of the edges 1 to `count`; after a refusal, a front of it.
///
/// After a refusal the engine stands after one of these edges, or after none. Each edge costs as much time as there are items and
/// pins. A write fault comes only where the count of faults rose.
pub fn write_vcd<E: Engine, O: Sink>(
    alloc: Global,
    engine: &mut E,
    schedule: &Schedule,
    count: u32,
    out: &mut O,
) -> Result<(), TraceEnd>
    requires first { E.present engine.old ≡ (E.machine engine.old).defined [] }
    requires schedule { IsFor (E.machine engine.old).pins schedule.now }
    requires few { length (E.machine engine.old).items ≤ 8192 }
    ensures text { let state = state_at (course_of (E.machine engine.old) schedule.now) in
        PutsUnless (O.written out.old) (O.written out.new) (O.faults out.old) (O.faults out.new) result
        (vcd_text (E.machine engine.old).items (λ k. (state k).items) count) }
    ensures leads { OnOk result (E.present engine.new ≡ state_at (course_of (E.machine engine.old) schedule.now) count) }
    ensures within { (k : ℕ) × (k ≤ count)
        × (E.present engine.new ≡ state_at (course_of (E.machine engine.old) schedule.now) k) }
    ensures machine { E.machine engine.new ≡ E.machine engine.old }
{
    let mut before = item_values(alloc, engine)?;
    let mut pins = vec![in alloc; 0; engine.pins().len()]?;
    put_start(engine, out)?;
    write_edges(engine, schedule, count, &mut pins, &mut before, out)?;
    Ok(())
}
