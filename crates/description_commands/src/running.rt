//! Tasks over a description with an image.
ghost use Rattle.std.specs.Prelude.{◌≡◌, ◌≤◌, ◌<◌, ◌^◌, length, false, IfSome};
ghost use Rattle.lisa_tree.specs.Descriptions.{description_tree};
ghost use Rattle.lisa_engine.specs.Images.{IsImage};
ghost use Rattle.lisa_sim.specs.lisa_machine.Machines.{IsSpelled};
ghost use Rattle.lisa_outcomes.specs.Ends.{Ends};
ghost use Rattle.lisa_outcomes.specs.RunViews.{bytes_of};
ghost use Rattle.engine_commands.specs.Schedules.{schedule_bytes};
ghost use Rattle.engine_commands.specs.Making.{GivesMade, IsCutMade};
ghost use Rattle.engine_commands.specs.Tasks.{takes_input, IsHeard, HasFailed};
ghost use Rattle.checked_descriptions.specs.Checked.{AfterChecks};
ghost use Rattle.description_commands.specs.Runs.{described_machine, GivesChecked, GivesRun, IsCutChecked, IsCutTree, IsCutRun};
ghost use Rattle.checked_descriptions.specs.ToolViews.{checked_of, AreTools};

use checked_descriptions::{Tools, description_of, image_for, tools_of};
use engine_commands::{Task, do_made, schedule_text};
use lisa_engine::Image;
use lisa_io::{Flush, Source};
use lisa_outcomes::{End, RunBytes};
use lisa_sim::Simulator;
use lisa_tree::Description;
use std::alloc::Global;

// A task over a description that is checked, with the memories of an image.
fn do_with_image<I: Source, O: Flush>(
    alloc: Global,
    tools: &Tools,
    image: &Image,
    task: Task,
    third: &[u8],
    input: &mut I,
    out: &mut O,
) -> Result<(), End>
    requires tools { AreTools tools.now }
    requires kept { IsImage image.now }
    requires short { length third.now < 2 ^ 32 }
    ensures ends { Ends (IsHeard task (I.left input.old)) (GivesMade task (described_machine (checked_of tools.now) image.now) image.now third.now)
        (HasFailed task (I.faults input.old) (I.faults input.new)
        × IsCutMade task (described_machine (checked_of tools.now) image.now) image.now third.now (I.left input.old) (I.left input.new) (O.written out.old) (O.written out.new))
        (O.written out.old) (O.written out.new) (O.faults out.old) (O.faults out.new) result }
    ensures input { takes_input task ≡ false → (I.left input.new ≡ I.left input.old) × (I.faults input.new ≡ I.faults input.old) }
    ensures later { I.faults input.old ≤ I.faults input.new }
{
    let made = Simulator::make(alloc, &tools.machine, &tools.forms, &tools.coding, image);
    do_made(alloc, made, task, third, input, out)
}

// A task over a description that is checked.
fn do_with_tools<I: Source, O: Flush>(
    alloc: Global,
    tools: &Tools,
    bytes: &RunBytes<'_>,
    task: Task,
    input: &mut I,
    out: &mut O,
) -> Result<(), End>
    requires tools { AreTools tools.now }
    requires image { IfSome (bytes_of bytes.now).image (λ image. length image < 2 ^ 32) }
    requires schedule { length (schedule_bytes (bytes_of bytes.now).schedule) < 2 ^ 32 }
    ensures ends { Ends (IsHeard task (I.left input.old)) (λ lines. GivesChecked task (bytes_of bytes.now) lines (checked_of tools.now))
        (HasFailed task (I.faults input.old) (I.faults input.new)
        × IsCutChecked task (checked_of tools.now) (bytes_of bytes.now) (I.left input.old) (I.left input.new) (O.written out.old) (O.written out.new))
        (O.written out.old) (O.written out.new) (O.faults out.old) (O.faults out.new) result }
    ensures input { takes_input task ≡ false → (I.left input.new ≡ I.left input.old) × (I.faults input.new ≡ I.faults input.old) }
    ensures later { I.faults input.old ≤ I.faults input.new }
{
    match image_for(alloc, tools.machine.description(), bytes) {
        Ok(image) => do_with_image(alloc, tools, &image, task, schedule_text(bytes), input, out),
        Err(end) => Err(end),
    }
}

// A task over a description, which is checked first.
fn do_with_tree<I: Source, O: Flush>(
    alloc: Global,
    description: Description,
    bytes: &RunBytes<'_>,
    task: Task,
    input: &mut I,
    out: &mut O,
) -> Result<(), End>
    requires spelled { IsSpelled (description_tree description) }
    requires image { IfSome (bytes_of bytes.now).image (λ image. length image < 2 ^ 32) }
    requires schedule { length (schedule_bytes (bytes_of bytes.now).schedule) < 2 ^ 32 }
    ensures ends { Ends (IsHeard task (I.left input.old)) (λ lines. AfterChecks (description_tree description) (GivesChecked task (bytes_of bytes.now) lines))
        (HasFailed task (I.faults input.old) (I.faults input.new)
        × IsCutTree task (description_tree description) (bytes_of bytes.now) (I.left input.old) (I.left input.new) (O.written out.old) (O.written out.new))
        (O.written out.old) (O.written out.new) (O.faults out.old) (O.faults out.new) result }
    ensures input { takes_input task ≡ false → (I.left input.new ≡ I.left input.old) × (I.faults input.new ≡ I.faults input.old) }
    ensures later { I.faults input.old ≤ I.faults input.new }
{
    match tools_of(alloc, description) {
        Ok(tools) => do_with_tools(alloc, &tools, bytes, task, input, out),
        Err(end) => Err(end),
    }
}

/// Does a task over the description that the first of a run's files spells, with an image and a schedule where these aren't left out:
/// the text of its state after some edges, that of a trace, a value change dump, what the console of a board prints, which is the third
/// file then, or the answers to the lines of the input.
pub fn do_with_description<I: Source, O: Flush>(
    alloc: Global,
    bytes: &RunBytes<'_>,
    task: Task,
    input: &mut I,
    out: &mut O,
) -> Result<(), End>
    requires main { length (bytes_of bytes.now).main < 2 ^ 32 }
    requires image { IfSome (bytes_of bytes.now).image (λ image. length image < 2 ^ 32) }
    requires schedule { length (schedule_bytes (bytes_of bytes.now).schedule) < 2 ^ 32 }
    ensures ends { Ends (IsHeard task (I.left input.old)) (GivesRun task (bytes_of bytes.now))
        (HasFailed task (I.faults input.old) (I.faults input.new) × IsCutRun task (bytes_of bytes.now) (I.left input.old) (I.left input.new) (O.written out.old) (O.written out.new))
        (O.written out.old) (O.written out.new) (O.faults out.old) (O.faults out.new) result }
    ensures input { takes_input task ≡ false → (I.left input.new ≡ I.left input.old) × (I.faults input.new ≡ I.faults input.old) }
    ensures later { I.faults input.old ≤ I.faults input.new }
{
    match description_of(alloc, bytes.main) {
        Ok(description) => do_with_tree(alloc, description, bytes, task, input, out),
        Err(end) => Err(end),
    }
}
