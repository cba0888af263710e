// The trace of a dump.
ghost use Rattle.std.specs.Prelude.{◌≡◌, IfErr};
ghost use Rattle.std.specs.List.{flat_map};
ghost use Rattle.lisa_engine.specs.Text.{edge_line};
ghost use Rattle.lisa_engine.specs.Traces.{PutsUnless};
ghost use Rattle.lisa_engine.specs.declared.trace.TraceEnd.TheVariants as ends;
ghost use Rattle.lisa_io.specs.Contents.{Puts};
ghost use Rattle.vcd_trace.specs.Traces.{name_at, change_line, time_text, dump_trace};

use crate::dumps::{Vcd, VcdTime};
use crate::numbers::put_decimal;
use lisa_engine::{Item, TraceEnd, put_item_line};
use lisa_io::{Failed, Sink, put_all};

fn put_time_line<O: Sink>(out: &mut O, time: u64) -> Result<(), Failed>
    ensures { Puts (O.written out.old) (O.written out.new) (O.faults out.old) (O.faults out.new) result (edge_line time) }
{
    put_all(out, b"edge ")?;
    put_decimal(out, time)?;
    put_all(out, b"\n")
}

// The name of an item.
fn name_of(items: &[Item], place: usize) -> &[u8]
    ensures { result.now ≡ name_at items.now place }
{
    match items.get(place) {
        Some(item) => item.name.as_bytes(),
        None => b"",
    }
}

fn put_change<O: Sink>(out: &mut O, items: &[Item], place: u32, value: u64) -> Result<(), Failed>
    ensures { Puts (O.written out.old) (O.written out.new) (O.faults out.old) (O.faults out.new) result (change_line items.now (place, value)) }
{
    put_item_line(out, name_of(items, place as usize), value)
}

fn put_changes<O: Sink>(out: &mut O, items: &[Item], changes: &[(u32, u64)]) -> Result<(), Failed>
    ensures { Puts (O.written out.old) (O.written out.new) (O.faults out.old) (O.faults out.new) result (flat_map (change_line items.now) changes.now) }
{
    for change in changes {
        put_change(out, items, change.0, change.1)?;
    }
    Ok(())
}

fn put_time<O: Sink>(out: &mut O, items: &[Item], time: &VcdTime) -> Result<(), Failed>
    ensures { Puts (O.written out.old) (O.written out.new) (O.faults out.old) (O.faults out.new) result (time_text items.now time.now) }
{
    put_time_line(out, time.time)?;
    put_changes(out, items, &time.changes)
}

fn put_times<O: Sink>(out: &mut O, items: &[Item], times: &[VcdTime]) -> Result<(), Failed>
    ensures { Puts (O.written out.old) (O.written out.new) (O.faults out.old) (O.faults out.new) result (flat_map (time_text items.now) times.now) }
{
    for time in times {
        put_time(out, items, time)?;
    }
    Ok(())
}

/// Appends the trace of a dump: for each time its line, and a line for each item that changed; after a refusal, a front of it.
///
/// A write fault comes only where the count of faults rose. No other end comes: it takes no memory.
pub fn write_vcd_trace<O: Sink>(vcd: &Vcd, out: &mut O) -> Result<(), TraceEnd>
    ensures text { PutsUnless (O.written out.old) (O.written out.new) (O.faults out.old) (O.faults out.new) result (dump_trace vcd.now) }
    ensures end { IfErr result (λ e. e ≡ ends.WriteFault) }
{
    put_times(out, &vcd.items, &vcd.times)?;
    Ok(())
}
