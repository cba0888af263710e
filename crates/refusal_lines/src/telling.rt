//! The line that a status has on the second stream.
ghost use Rattle.std.specs.Prelude.{◌≡◌, true, IsErr};
ghost use Rattle.lisa_io.specs.Contents.{Puts};
ghost use Rattle.refusal_lines.specs.LineViews.{line_of};
ghost use Rattle.refusal_lines.specs.Says.{refusal_line, status_text, has_line};
ghost use Rattle.refusal_lines.specs.Told.{IsTold};
ghost use Rattle.lisa_outcomes.specs.declared.status.Status.TheVariants as statuses;

use crate::fault_lines::{description_line, file_line, input_line, program_line};
use crate::lines::{Line, put_line};
use crate::module_lines::{board_line, image_line, netlist_line, schedule_line, verilog_line};
use crate::source_lines::{link_line, object_line, source_line};
use crate::tool_lines::{hex_line, memh_line, vcd_line};
use lisa_io::{Failed, Sink, put_all};
use lisa_outcomes::{Refusal, Status};

const USAGE: &[u8] =
    b"usage: lisa check|fmt|verilog|run|trace|clock|clocktrace|asm|link|dis|debug|vdebug|gen|soak|tohex|fromhex|tomem|frommem|vcd|vvcd|unvcd|occupancy|board|vboard ..\n";

// The line of a refusal.
fn refusal_line(refusal: &Refusal) -> Line<'_>
    ensures { line_of result ≡ refusal_line refusal.now }
{
    match refusal {
        Refusal::File(fault) => file_line(fault),
        Refusal::Input(fault) => input_line(fault),
        Refusal::Program(fault) => program_line(fault),
        Refusal::Netlist(fault) => netlist_line(fault),
        Refusal::Description(fault) => description_line(fault),
        Refusal::Verilog(fault) => verilog_line(fault),
        Refusal::Image(fault) => image_line(fault),
        Refusal::Object(fault) => object_line(fault),
        Refusal::Schedule(fault) => schedule_line(fault),
        Refusal::Source(fault) => source_line(fault),
        Refusal::Link(fault) => link_line(fault),
        Refusal::Hex(fault) => hex_line(fault),
        Refusal::Memh(fault) => memh_line(fault),
        Refusal::Vcd(fault) => vcd_line(fault),
        Refusal::Board(fault) => board_line(fault),
    }
}

// The text of a status.
fn put_status<E: Sink>(status: &Status, err: &mut E) -> Result<(), Failed>
    ensures puts { Puts (E.written err.old) (E.written err.new) (E.faults err.old) (E.faults err.new) result (status_text status.now) }
    ensures silent { IsErr result → has_line status.now ≡ true }
{
    match status {
        Status::Done | Status::WriteFault => Ok(()),
        Status::Refused(refusal) => put_line(err, &refusal_line(refusal)),
        Status::Usage => put_all(err, USAGE),
        Status::ReadFault => put_all(err, b"lisa: read fault\n"),
        Status::NoMemory => put_all(err, b"lisa: out of memory\n"),
    }
}

/// Tells a status, which becomes a write fault where that fails.
pub fn tell<E: Sink>(status: Status, err: &mut E) -> Status
    ensures { IsTold status (E.written err.old) (E.written err.new) (E.faults err.old) (E.faults err.new) result }
{
    match put_status(&status, err) {
        Ok(()) => status,
        Err(_) => Status::WriteFault,
    }
}

/// Tells that memory was wanted, where there was none for the words themselves.
pub fn tell_no_memory<E: Sink>(err: &mut E) -> Status
    ensures { IsTold statuses.NoMemory (E.written err.old) (E.written err.new) (E.faults err.old) (E.faults err.new) result }
{
    tell(Status::NoMemory, err)
}
