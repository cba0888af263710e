//! The trace of a value change dump.
ghost use Rattle.std.specs.Prelude.{◌≡◌, ◌<◌, ◌^◌, length};
ghost use Rattle.vcd_trace.specs.Traces.{dump_trace};
ghost use Rattle.vcd_trace.specs.VcdFaults.{Spells};
ghost use Rattle.lisa_outcomes.specs.Replies.{Replies};
ghost use Rattle.lisa_outcomes.specs.Stages.{Finds};
ghost use Rattle.lisa_outcomes.specs.Writes.{Writes};
ghost use Rattle.engine_commands.specs.Replays.{IsNoDump, GivesReplay};
ghost use Rattle.engine_commands.specs.Unread.{unread_dump};

use lisa_engine::TraceEnd;
use lisa_io::Sink;
use lisa_outcomes::{End, Refusal};
use std::alloc::Global;
use vcd_trace::{Vcd, VcdFault, read_vcd, write_vcd_trace};

// The end of a command whose dump wasn't read.
fn unread(fault: VcdFault) -> End
    ensures { result ≡ unread_dump fault }
{
    match fault {
        VcdFault::NoMemory => End::NoMemory,
        other => End::Refused(Refusal::Vcd(other)),
    }
}

// The dump that bytes spell.
fn dump_of(alloc: Global, bytes: &[u8]) -> Result<Vcd, End>
    requires { length bytes.now < 2 ^ 32 }
    ensures { Finds (λ vcd. vcd) (Spells bytes.now) (IsNoDump bytes.now) result }
{
    match read_vcd(alloc, bytes) {
        Ok(vcd) => Ok(vcd),
        Err(fault) => Err(unread(fault)),
    }
}

// Writes the trace of a dump.
fn put_replay<O: Sink>(vcd: &Vcd, out: &mut O) -> Result<(), End>
    ensures { Writes (O.written out.old) (O.written out.new) (O.faults out.old) (O.faults out.new) result (dump_trace vcd.now) }
{
    match write_vcd_trace(vcd, out) {
        Ok(()) => Ok(()),
        Err(TraceEnd::WriteFault) => Err(End::WriteFault),
        Err(TraceEnd::NoMemory) => Err(End::NoMemory),
    }
}

/// `unvcd`: writes the trace of the value change dump that the bytes spell.
pub fn replay_waves<O: Sink>(alloc: Global, dump: &[u8], out: &mut O) -> Result<(), End>
    requires { length dump.now < 2 ^ 32 }
    ensures { Replies (GivesReplay dump.now) (O.written out.old) (O.written out.new) (O.faults out.old) (O.faults out.new) result }
{
    match dump_of(alloc, dump) {
        Ok(vcd) => put_replay(&vcd, out),
        Err(end) => Err(end),
    }
}
