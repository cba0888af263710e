//! Tasks over the clock of a module.
ghost use Rattle.std.specs.Prelude.{◌≡◌, ◌<◌, ◌^◌, ◌≤◌, length, false, IfSome};
ghost use Rattle.lisa_engine.specs.Images.{IsImage};
ghost use Rattle.verilog_text.specs.Trees.{module_tree};
ghost use Rattle.verilog_text.specs.Clockable.{IsClockable};
ghost use Rattle.lisa_outcomes.specs.Ends.{Ends};
ghost use Rattle.lisa_outcomes.specs.RunViews.{bytes_of};
ghost use Rattle.engine_commands.specs.Schedules.{schedule_bytes};
ghost use Rattle.engine_commands.specs.Making.{GivesMade, IsCutMade};
ghost use Rattle.engine_commands.specs.Tasks.{takes_input, IsHeard, HasFailed};
ghost use Rattle.module_commands.specs.Designs.{clock_machine};
ghost use Rattle.module_commands.specs.DesignViews.{design_of};
ghost use Rattle.module_commands.specs.Clocks.{GivesClock, IsCutClock};

use crate::designs::read_parts;
use crate::parts::Parts;
use engine_commands::{Task, do_made, schedule_text};
use lisa_io::{Flush, Source};
use lisa_outcomes::{End, RunBytes};
use std::alloc::Global;
use verilog_clock::Clock;

// A task over the clock of a module with an image.
fn do_with_parts<I: Source, O: Flush>(
    alloc: Global,
    parts: &Parts,
    task: Task,
    third: &[u8],
    input: &mut I,
    out: &mut O,
) -> Result<(), End>
    requires clockable { IsClockable (module_tree parts.now.clocked) }
    requires kept { IsImage parts.now.image }
    requires short { length third.now < 2 ^ 32 }
    ensures ends { Ends (IsHeard task (I.left input.old)) (GivesMade task (clock_machine (design_of parts.now)) parts.now.image third.now)
        (HasFailed task (I.faults input.old) (I.faults input.new)
        × IsCutMade task (clock_machine (design_of parts.now)) parts.now.image third.now (I.left input.old) (I.left input.new) (O.written out.old) (O.written out.new))
        (O.written out.old) (O.written out.new) (O.faults out.old) (O.faults out.new) result }
    ensures input { takes_input task ≡ false → (I.left input.new ≡ I.left input.old) × (I.faults input.new ≡ I.faults input.old) }
    ensures later { I.faults input.old ≤ I.faults input.new }
{
    let made = Clock::make(alloc, &parts.clocked, &parts.image);
    do_made(alloc, made, task, third, input, out)
}

/// Does a task over the clock of a module, which the first of a run's files spells, with an image and a schedule where these aren't left
/// out; on a board the third file is the board.
pub fn do_with_module<I: Source, O: Flush>(
    alloc: Global,
    bytes: &RunBytes<'_>,
    task: Task,
    input: &mut I,
    out: &mut O,
) -> Result<(), End>
    requires main { length (bytes_of bytes.now).main < 2 ^ 32 }
    requires image { IfSome (bytes_of bytes.now).image (λ image. length image < 2 ^ 32) }
    requires schedule { length (schedule_bytes (bytes_of bytes.now).schedule) < 2 ^ 32 }
    ensures ends { Ends (IsHeard task (I.left input.old)) (GivesClock task (bytes_of bytes.now))
        (HasFailed task (I.faults input.old) (I.faults input.new) × IsCutClock task (bytes_of bytes.now) (I.left input.old) (I.left input.new) (O.written out.old) (O.written out.new))
        (O.written out.old) (O.written out.new) (O.faults out.old) (O.faults out.new) result }
    ensures input { takes_input task ≡ false → (I.left input.new ≡ I.left input.old) × (I.faults input.new ≡ I.faults input.old) }
    ensures later { I.faults input.old ≤ I.faults input.new }
{
    match read_parts(alloc, bytes) {
        Ok(parts) => do_with_parts(alloc, &parts, task, schedule_text(bytes), input, out),
        Err(end) => Err(end),
    }
}
