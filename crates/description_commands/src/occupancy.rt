//! The command that counts in how many edges each stage ran something, was held and was flushed.
ghost use Rattle.std.specs.Prelude.{◌≡◌, ◌≤◌, ◌<◌, ◌-◌, ◌^◌, [], map, length, IfSome};
ghost use Rattle.std.specs.List.{flat_map, enumerate_from};
ghost use Rattle.lisa_tree.specs.Descriptions.{description_tree, resource_tree};
ghost use Rattle.lisa_tree.specs.Resources.{stages_in};
ghost use Rattle.lisa_engine.specs.Images.{IsImage};
ghost use Rattle.lisa_engine.specs.Machines.{course_of, entries_to};
ghost use Rattle.lisa_engine.specs.PinValues.{IsFor};
ghost use Rattle.lisa_io.specs.Contents.{Puts};
ghost use Rattle.lisa_sim.specs.Simulators.{description_of, image_of as image_in};
ghost use Rattle.lisa_sim.specs.lisa_machine.Machines.{IsSpelled};
ghost use Rattle.lisa_sim.specs.lisa_meaning.States.{after_edges};
ghost use Rattle.lisa_outcomes.specs.Replies.{Replies};
ghost use Rattle.lisa_outcomes.specs.RunViews.{bytes_of};
ghost use Rattle.lisa_outcomes.specs.Writes.{Writes};
ghost use Rattle.engine_commands.specs.Schedules.{schedule_bytes};
ghost use Rattle.checked_descriptions.specs.Checked.{AfterChecks};
ghost use Rattle.checked_descriptions.specs.ToolViews.{checked_of, AreTools};
ghost use Rattle.description_commands.specs.Occupied.{CountsMore, AreUpTo, IsOccupancy, counted_line};
ghost use Rattle.description_commands.specs.Occupancies.{labelled, occupancy_line, occupancy_text, OccupiesUnder, OccupiesMade, OccupiesChecked, GivesOccupancy};

use crate::counts::put_number;
use activation_bits::has_bit;
use checked_descriptions::{Tools, description_of, image_for, tools_of};
use engine_commands::{schedule_for, schedule_text, unmade};
use lisa_engine::{Engine, Image, Schedule};
use lisa_io::{Failed, Sink, put_all};
use lisa_outcomes::{End, RunBytes};
use lisa_sim::{Seen, Simulator};
use lisa_tree::{Description, Resource};
use lisa_words::Name;
use std::alloc::Global;

/// In how many edges each of eight stages ran something as in its own, was held, and was flushed.
#[derive(Clone, Copy, Debug)]
pub(crate) struct Occupancy {
    executed: [u32; 8],
    held: [u32; 8],
    flushed: [u32; 8],
}

// Counts one more edge of the stages that have a bit.
fn count_more(counts: &mut [u32; 8], stages: u8)
    requires { AreUpTo (2 ^ 32 - 2) counts.old }
    ensures { CountsMore stages counts.old counts.new }
{
    for stage in 0..8 {
        if has_bit(u64::from(stages), stage as u32) {
            counts[stage] += 1;
        }
    }
}

impl Occupancy {
    // Counts one more edge.
    fn count(&mut self, seen: Seen)
        requires executed { AreUpTo (2 ^ 32 - 2) self.old.executed }
        requires held { AreUpTo (2 ^ 32 - 2) self.old.held }
        requires flushed { AreUpTo (2 ^ 32 - 2) self.old.flushed }
        ensures executed { CountsMore seen.ran self.old.executed self.new.executed }
        ensures held { CountsMore seen.held self.old.held self.new.held }
        ensures flushed { CountsMore seen.flushed self.old.flushed self.new.flushed }
    {
        count_more(&mut self.executed, seen.ran);
        count_more(&mut self.held, seen.held);
        count_more(&mut self.flushed, seen.flushed);
    }
}

// Makes the edges 1 to `edges`, and counts what each stage did in them.
fn count_edges<'a>(
    simulator: &mut Simulator<'a>,
    schedule: &Schedule,
    edges: u32,
    pins: &mut [u64],
) -> Occupancy
    requires first { ⟦<Simulator<'a> as Engine>⟧.present simulator.old ≡ (⟦<Simulator<'a> as Engine>⟧.machine simulator.old).defined [] }
    requires schedule { IsFor (⟦<Simulator<'a> as Engine>⟧.machine simulator.old).pins schedule.now }
    requires room { length pins.old ≡ length (⟦<Simulator<'a> as Engine>⟧.machine simulator.old).pins }
    ensures { let machine = ⟦<Simulator<'a> as Engine>⟧.machine simulator.old in
        IsOccupancy (description_of simulator.old)
        (after_edges (description_of simulator.old) (image_in simulator.old) (entries_to (course_of machine schedule.now) edges)).past result }
{
    pins.fill(0);
    let mut counts = Occupancy {
        executed: [0; 8],
        held: [0; 8],
        flushed: [0; 8],
    };
    let mut next = schedule.play(0, 0, pins);
    for made in 0..edges {
        next = schedule.play(next, made + 1, pins);
        counts.count(simulator.edge_seen(pins));
    }
    counts
}

// The stages of the pipeline.
fn pipeline_stages(resources: &[Resource]) -> &[Name]
    ensures { result.now ≡ stages_in (map resource_tree resources.now) }
{
    for resource in resources {
        if let Resource::Pipeline(_, stages) = resource {
            return stages;
        }
    }
    &[]
}

fn put_labelled<O: Sink>(out: &mut O, label: &[u8], count: u32) -> Result<(), Failed>
    ensures { Puts (O.written out.old) (O.written out.new) (O.faults out.old) (O.faults out.new) result (labelled label.now count) }
{
    put_all(out, label)?;
    put_number(out, u64::from(count))
}

// The line of a stage.
fn put_stage<O: Sink>(
    out: &mut O,
    name: &[u8],
    executed: u32,
    held: u32,
    flushed: u32,
) -> Result<(), Failed>
    ensures { Puts (O.written out.old) (O.written out.new) (O.faults out.old) (O.faults out.new) result (occupancy_line name.now executed held flushed) }
{
    put_all(out, name)?;
    put_labelled(out, b" executed ", executed)?;
    put_labelled(out, b" held ", held)?;
    put_labelled(out, b" flushed ", flushed)?;
    put_all(out, b"\n")
}

// The lines of all stages.
fn put_stages<O: Sink>(out: &mut O, names: &[Name], counts: &Occupancy) -> Result<(), Failed>
    requires { length names.now ≤ 8 }
    ensures { Puts (O.written out.old) (O.written out.new) (O.faults out.old) (O.faults out.new) result (flat_map (counted_line counts.now) (enumerate_from 0 names.now)) }
{
    for (stage, name) in names.iter().enumerate() {
        let executed = counts.executed[stage];
        put_stage(
            out,
            name.as_bytes(),
            executed,
            counts.held[stage],
            counts.flushed[stage],
        )?;
    }
    Ok(())
}

// Writes what the stages do in the edges of a schedule.
fn write_stages<'a, O: Sink>(
    alloc: Global,
    tools: &Tools,
    simulator: &mut Simulator<'a>,
    schedule: &Schedule,
    edges: u32,
    out: &mut O,
) -> Result<(), End>
    requires tools { AreTools tools.now }
    requires description { description_of simulator.old ≡ (checked_of tools.now).tree }
    requires first { ⟦<Simulator<'a> as Engine>⟧.present simulator.old ≡ (⟦<Simulator<'a> as Engine>⟧.machine simulator.old).defined [] }
    requires fits { IsFor (⟦<Simulator<'a> as Engine>⟧.machine simulator.old).pins schedule.now }
    ensures { let d = (checked_of tools.now).tree in
        let entries = entries_to (course_of (⟦<Simulator<'a> as Engine>⟧.machine simulator.old) schedule.now) edges in
        Writes (O.written out.old) (O.written out.new) (O.faults out.old) (O.faults out.new) result (occupancy_text d (after_edges d (image_in simulator.old) entries).past) }
{
    let mut pins = match vec![in alloc; 0; simulator.pins().len()] {
        Ok(pins) => pins,
        Err(_) => return Err(End::NoMemory),
    };
    let counts = count_edges(simulator, schedule, edges, &mut pins);
    let stages = pipeline_stages(&tools.machine.description().resources);
    match put_stages(out, stages, &counts) {
        Ok(()) => Ok(()),
        Err(_) => Err(End::WriteFault),
    }
}

// `occupancy` with a simulator, under the schedule that bytes write.
fn count_under<'a, O: Sink>(
    alloc: Global,
    tools: &Tools,
    simulator: &mut Simulator<'a>,
    schedule: &[u8],
    edges: u32,
    out: &mut O,
) -> Result<(), End>
    requires tools { AreTools tools.now }
    requires description { description_of simulator.old ≡ (checked_of tools.now).tree }
    requires first { ⟦<Simulator<'a> as Engine>⟧.present simulator.old ≡ (⟦<Simulator<'a> as Engine>⟧.machine simulator.old).defined [] }
    requires short { length schedule.now < 2 ^ 32 }
    ensures { let machine = ⟦<Simulator<'a> as Engine>⟧.machine simulator.old in
        Replies (OccupiesUnder edges (checked_of tools.now).tree schedule.now (image_in simulator.old) machine)
        (O.written out.old) (O.written out.new) (O.faults out.old) (O.faults out.new) result }
{
    match schedule_for(alloc, schedule, simulator.pins()) {
        Ok(schedule) => write_stages(alloc, tools, simulator, &schedule, edges, out),
        Err(end) => Err(end),
    }
}

// `occupancy` over a description that is checked, with the memories of an image.
fn count_with_image<O: Sink>(
    alloc: Global,
    tools: &Tools,
    image: &Image,
    schedule: &[u8],
    edges: u32,
    out: &mut O,
) -> Result<(), End>
    requires tools { AreTools tools.now }
    requires kept { IsImage image.now }
    requires short { length schedule.now < 2 ^ 32 }
    ensures { Replies (OccupiesMade edges (checked_of tools.now) schedule.now image.now) (O.written out.old) (O.written out.new) (O.faults out.old) (O.faults out.new) result }
{
    match Simulator::make(alloc, &tools.machine, &tools.forms, &tools.coding, image) {
        Ok(mut simulator) => count_under(alloc, tools, &mut simulator, schedule, edges, out),
        Err(fault) => Err(unmade(fault)),
    }
}

// `occupancy` over a description that is checked.
fn count_with_tools<O: Sink>(
    alloc: Global,
    tools: &Tools,
    bytes: &RunBytes<'_>,
    edges: u32,
    out: &mut O,
) -> Result<(), End>
    requires tools { AreTools tools.now }
    requires image { IfSome (bytes_of bytes.now).image (λ image. length image < 2 ^ 32) }
    requires schedule { length (schedule_bytes (bytes_of bytes.now).schedule) < 2 ^ 32 }
    ensures { Replies (OccupiesChecked edges (bytes_of bytes.now) (checked_of tools.now)) (O.written out.old) (O.written out.new) (O.faults out.old) (O.faults out.new) result }
{
    match image_for(alloc, tools.machine.description(), bytes) {
        Ok(image) => count_with_image(alloc, tools, &image, schedule_text(bytes), edges, out),
        Err(end) => Err(end),
    }
}

// `occupancy` over a description.
fn count_tree<O: Sink>(
    alloc: Global,
    description: Description,
    bytes: &RunBytes<'_>,
    edges: u32,
    out: &mut O,
) -> Result<(), End>
    requires spelled { IsSpelled (description_tree description) }
    requires image { IfSome (bytes_of bytes.now).image (λ image. length image < 2 ^ 32) }
    requires schedule { length (schedule_bytes (bytes_of bytes.now).schedule) < 2 ^ 32 }
    ensures { Replies (AfterChecks (description_tree description) (OccupiesChecked edges (bytes_of bytes.now))) (O.written out.old) (O.written out.new) (O.faults out.old) (O.faults out.new) result }
{
    match tools_of(alloc, description) {
        Ok(tools) => count_with_tools(alloc, &tools, bytes, edges, out),
        Err(end) => Err(end),
    }
}

/// `occupancy`: writes in how many of the edges 1 to `edges` each stage ran something as in its own, was held, and was flushed, or is refused
/// with the first fault: of the description, of an image, of an image for another description, of the image's first memory that is no array of
/// the description, or of the schedule.
pub fn count_stages<O: Sink>(
    alloc: Global,
    bytes: &RunBytes<'_>,
    edges: u32,
    out: &mut O,
) -> Result<(), End>
    requires main { length (bytes_of bytes.now).main < 2 ^ 32 }
    requires image { IfSome (bytes_of bytes.now).image (λ image. length image < 2 ^ 32) }
    requires schedule { length (schedule_bytes (bytes_of bytes.now).schedule) < 2 ^ 32 }
    ensures { Replies (GivesOccupancy edges (bytes_of bytes.now)) (O.written out.old) (O.written out.new) (O.faults out.old) (O.faults out.new) result }
{
    match description_of(alloc, bytes.main) {
        Ok(description) => count_tree(alloc, description, bytes, edges, out),
        Err(end) => Err(end),
    }
}
