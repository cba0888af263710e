//! Sessions of the debugger over an engine.
ghost use Rattle.std.specs.Prelude.{◌≡◌, ◌≤◌, [], Some};
ghost use Rattle.lisa_io.specs.Causes.{Rose};
ghost use Rattle.lisa_engine.specs.PinValues.{IsFor};
ghost use Rattle.lisa_outcomes.specs.Ends.{Ends};
ghost use Rattle.lisa_engine.specs.Machines.{course_of};
ghost use Rattle.engine_commands.specs.Sessions.{session_outcome, IsCutOff, end_of};

use lisa_debug::{SessionEnd, answer_input};
use lisa_engine::{Engine, Schedule};
use lisa_io::{Flush, Source};
use lisa_outcomes::{End, InputFault, Refusal};
use std::alloc::Global;

// How a command ends whose session ended so.
fn session_end(end: SessionEnd) -> End
    ensures { result ≡ end_of end }
{
    match end {
        SessionEnd::TooLong => End::Refused(Refusal::Input(InputFault::TooLong {})),
        SessionEnd::ReadFault => End::ReadFault,
        SessionEnd::WriteFault => End::WriteFault,
        SessionEnd::NoMemory => End::NoMemory,
    }
}

/// Answers the lines of the input under a schedule.
pub fn answer_under<E: Engine + Drop, I: Source, O: Flush>(
    alloc: Global,
    engine: E,
    schedule: Schedule,
    input: &mut I,
    out: &mut O,
) -> Result<(), End>
    requires first { E.present engine ≡ (E.machine engine).defined [] }
    requires fits { IsFor (E.machine engine).pins schedule }
    ensures ends { let machine = E.machine engine in
        Ends (λ bytes. I.left input.old ≡ Some bytes) (λ bytes outcome. outcome ≡ session_outcome (course_of machine schedule) bytes)
        (Rose (I.faults input.old) (I.faults input.new) × IsCutOff (course_of machine schedule) (I.left input.old) (I.left input.new) (O.written out.old) (O.written out.new))
        (O.written out.old) (O.written out.new) (O.faults out.old) (O.faults out.new) result }
    ensures later { I.faults input.old ≤ I.faults input.new }
{
    match answer_input(alloc, engine, schedule, input, out) {
        Ok(()) => Ok(()),
        Err(end) => Err(session_end(end)),
    }
}
