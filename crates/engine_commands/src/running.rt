//! The text of an engine's state after some edges, of a trace, and of a value change dump.
ghost use Rattle.std.specs.Prelude.{◌≡◌, ◌≤◌, [], length};
ghost use Rattle.lisa_engine.specs.PinValues.{IsFor};
ghost use Rattle.lisa_engine.specs.Text.{state_text, trace_text};
ghost use Rattle.vcd_trace.specs.VcdText.{vcd_text};
ghost use Rattle.lisa_outcomes.specs.Writes.{Writes};
ghost use Rattle.lisa_engine.specs.Machines.{course_of, state_at};

use lisa_engine::{Engine, Schedule, TraceEnd, run_edges, write_state, write_trace};
use lisa_io::Sink;
use lisa_outcomes::End;
use std::alloc::Global;
use vcd_trace::write_vcd;

/// Writes the state after some edges of a schedule.
pub fn put_state<E: Engine, O: Sink>(
    alloc: Global,
    engine: &mut E,
    schedule: &Schedule,
    edges: u32,
    out: &mut O,
) -> Result<(), End>
    requires first { E.present engine.old ≡ (E.machine engine.old).defined [] }
    requires fits { IsFor (E.machine engine.old).pins schedule.now }
    ensures { Writes (O.written out.old) (O.written out.new) (O.faults out.old) (O.faults out.new) result
        (state_text (E.machine engine.old).items (E.machine engine.old).arrays edges (state_at (course_of (E.machine engine.old) schedule.now) edges)) }
{
    let mut pins = match vec![in alloc; 0; engine.pins().len()] {
        Ok(pins) => pins,
        Err(_) => return Err(End::NoMemory),
    };
    run_edges(engine, schedule, 0, edges, &mut pins);
    match write_state(engine, edges, out) {
        Ok(()) => Ok(()),
        Err(_) => Err(End::WriteFault),
    }
}

/// Writes the first state, and what each of some edges of a schedule changes.
pub fn put_trace<E: Engine, O: Sink>(
    alloc: Global,
    engine: &mut E,
    schedule: &Schedule,
    edges: u32,
    out: &mut O,
) -> Result<(), End>
    requires first { E.present engine.old ≡ (E.machine engine.old).defined [] }
    requires fits { IsFor (E.machine engine.old).pins schedule.now }
    ensures { Writes (O.written out.old) (O.written out.new) (O.faults out.old) (O.faults out.new) result
        (trace_text (E.machine engine.old).items (E.machine engine.old).arrays (state_at (course_of (E.machine engine.old) schedule.now)) edges) }
{
    match write_trace(alloc, engine, schedule, edges, out) {
        Ok(()) => Ok(()),
        Err(TraceEnd::WriteFault) => Err(End::WriteFault),
        Err(TraceEnd::NoMemory) => Err(End::NoMemory),
    }
}

/// Writes the value change dump of the items over some edges of a schedule.
pub fn put_waves<E: Engine, O: Sink>(
    alloc: Global,
    engine: &mut E,
    schedule: &Schedule,
    edges: u32,
    out: &mut O,
) -> Result<(), End>
    requires first { E.present engine.old ≡ (E.machine engine.old).defined [] }
    requires fits { IsFor (E.machine engine.old).pins schedule.now }
    requires few { length (E.machine engine.old).items ≤ 8192 }
    ensures { let state = state_at (course_of (E.machine engine.old) schedule.now) in
        Writes (O.written out.old) (O.written out.new) (O.faults out.old) (O.faults out.new) result
        (vcd_text (E.machine engine.old).items (λ k. (state k).items) edges) }
{
    match write_vcd(alloc, engine, schedule, edges, out) {
        Ok(()) => Ok(()),
        Err(TraceEnd::WriteFault) => Err(End::WriteFault),
        Err(TraceEnd::NoMemory) => Err(End::NoMemory),
    }
}
