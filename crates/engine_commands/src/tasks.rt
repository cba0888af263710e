//! What is to be done with an engine.
ghost use Rattle.std.specs.Prelude.{◌≡◌, ◌≤◌, ◌<◌, ◌^◌, [], List, ℕ, length, false};
ghost use Rattle.lisa_outcomes.specs.Ends.{Ends};
ghost use Rattle.engine_commands.specs.Tasks.{takes_input, IsHeard, GivesUnder, HasFailed, IsCutUnder, IsSmall};

use crate::boards::play_board;
use crate::running::{put_state, put_trace, put_waves};
use crate::scheduling::schedule_for;
use crate::sessions::answer_under;
use lisa_engine::Engine;
use lisa_io::{Flush, Source};
use lisa_outcomes::End;
use std::alloc::Global;

/// What is to be done with an engine.
#[derive(Clone, Copy, Debug)]
pub enum Task {
    /// The text of its state after some edges.
    State { edges: u32 },
    /// The text of its first state, and of what each of some edges changes.
    Trace { edges: u32 },
    /// The value change dump of its items over some edges.
    Waves { edges: u32 },
    /// What the console of a board prints in some edges, with the whole input.
    Board { edges: u32 },
    /// The answers to the lines of the input.
    Answers,
}

/// Does a task with an engine, under the schedule or on the board that bytes write.
pub fn do_task<E: Engine + Drop, I: Source, O: Flush>(
    alloc: Global,
    mut engine: E,
    task: Task,
    third: &[u8],
    input: &mut I,
    out: &mut O,
) -> Result<(), End>
    requires first { E.present engine ≡ (E.machine engine).defined [] }
    requires few { IsSmall (E.machine engine) }
    requires short { length third.now < 2 ^ 32 }
    ensures ends { let machine = E.machine engine in
        Ends (IsHeard task (I.left input.old)) (GivesUnder task machine third.now)
        (HasFailed task (I.faults input.old) (I.faults input.new)
        × IsCutUnder task machine third.now (I.left input.old) (I.left input.new) (O.written out.old) (O.written out.new))
        (O.written out.old) (O.written out.new) (O.faults out.old) (O.faults out.new) result }
    ensures input { takes_input task ≡ false → (I.left input.new ≡ I.left input.old) × (I.faults input.new ≡ I.faults input.old) }
    ensures later { I.faults input.old ≤ I.faults input.new }
{
    if let Task::Board { edges } = task {
        return play_board(alloc, &mut engine, third, edges, input, out);
    }
    let schedule = match schedule_for(alloc, third, engine.pins()) {
        Ok(schedule) => schedule,
        Err(end) => return Err(end),
    };
    match task {
        Task::State { edges } => put_state(alloc, &mut engine, &schedule, edges, out),
        Task::Trace { edges } => put_trace(alloc, &mut engine, &schedule, edges, out),
        Task::Waves { edges } => put_waves(alloc, &mut engine, &schedule, edges, out),
        Task::Board { .. } => unreachable!(),
        Task::Answers => answer_under(alloc, engine, schedule, input, out),
    }
}
