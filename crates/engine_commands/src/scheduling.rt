//! Schedules from bytes.
ghost use Rattle.std.specs.Prelude.{◌≡◌, ◌<◌, ◌^◌, length, IfOk};
ghost use Rattle.lisa_engine.specs.PinValues.{IsFor};
ghost use Rattle.lisa_outcomes.specs.RunViews.{bytes_of};
ghost use Rattle.lisa_outcomes.specs.Stages.{Finds};
ghost use Rattle.engine_commands.specs.Schedules.{IsSchedule, IsNoSchedule, schedule_bytes};
ghost use Rattle.engine_commands.specs.Unread.{unscheduled_end};

use lisa_engine::{Item, Schedule, ScheduleFault, read_schedule};
use lisa_outcomes::{End, Refusal, RunBytes};
use std::alloc::Global;

// The end of a command whose schedule wasn't read.
fn unscheduled(fault: ScheduleFault) -> End
    ensures { result ≡ unscheduled_end fault }
{
    match fault {
        ScheduleFault::NoMemory => End::NoMemory,
        other => End::Refused(Refusal::Schedule(other)),
    }
}

/// The schedule that bytes write for these pins.
pub fn schedule_for(alloc: Global, bytes: &[u8], pins: &[Item]) -> Result<Schedule, End>
    requires { length bytes.now < 2 ^ 32 }
    ensures finds { Finds (λ lines. lines) (IsSchedule pins.now bytes.now) (IsNoSchedule pins.now bytes.now) result }
    ensures fits { IfOk result (IsFor pins.now) }
{
    match read_schedule(alloc, bytes, pins) {
        Ok(schedule) => Ok(schedule),
        Err(fault) => Err(unscheduled(fault)),
    }
}

/// The bytes of a run's schedule; one that is left out has none.
pub fn schedule_text<'a>(bytes: &RunBytes<'a>) -> &'a [u8]
    ensures { result.now ≡ schedule_bytes (bytes_of bytes.now).schedule }
{
    match bytes.schedule {
        Some(schedule) => schedule,
        None => &[],
    }
}
