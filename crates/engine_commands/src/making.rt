//! Tasks over an engine that is made with the memories of an image.
ghost use Rattle.std.specs.Prelude.{◌≡◌, ◌≤◌, ◌<◌, ◌^◌, [], List, ℕ, length, false, IfOk};
ghost use Rattle.lisa_engine.specs.Memory.{Memory};
ghost use Rattle.lisa_outcomes.specs.Ends.{Ends};
ghost use Rattle.lisa_engine.specs.Machines.{Machine};
ghost use Rattle.engine_commands.specs.Making.{GivesMade, IsCutMade, Makes};
ghost use Rattle.engine_commands.specs.Tasks.{takes_input, IsHeard, HasFailed, IsSmall};
ghost use Rattle.engine_commands.specs.Unread.{unmade_end};

use crate::tasks::{Task, do_task};
use lisa_engine::{Engine, MakeFault};
use lisa_io::{Flush, Source};
use lisa_object::ImageFault;
use lisa_outcomes::{End, Refusal};
use std::alloc::Global;

/// The end of a command whose engine wasn't made.
pub fn unmade(fault: MakeFault) -> End
    ensures { result ≡ unmade_end fault }
{
    match fault {
        MakeFault::NoSuchMemory { name } => {
            End::Refused(Refusal::Image(ImageFault::NoSuchMemory { name }))
        }
        MakeFault::NoMemory => End::NoMemory,
    }
}

/// Does a task with an engine, where it was made, under the schedule or on the board that bytes write; else a memory of the image was
/// missing, or memory was wanted.
pub fn do_made<E: Engine + Drop, I: Source, O: Flush>(
    alloc: Global,
    made: Result<E, MakeFault>,
    task: Task,
    third: &[u8],
    input: &mut I,
    out: &mut O,
) -> Result<(), End>
    requires first { IfOk made (λ e. E.present e ≡ (E.machine e).defined []) }
    requires few { IfOk made (λ e. IsSmall (E.machine e)) }
    requires short { length third.now < 2 ^ 32 }
    ensures ends { (wanted : Machine) (memories : List Memory)
        → Makes E.machine wanted memories made
        → Ends (IsHeard task (I.left input.old)) (GivesMade task wanted memories third.now)
        (HasFailed task (I.faults input.old) (I.faults input.new)
        × IsCutMade task wanted memories third.now (I.left input.old) (I.left input.new) (O.written out.old) (O.written out.new))
        (O.written out.old) (O.written out.new) (O.faults out.old) (O.faults out.new) result }
    ensures input { takes_input task ≡ false → (I.left input.new ≡ I.left input.old) × (I.faults input.new ≡ I.faults input.old) }
    ensures later { I.faults input.old ≤ I.faults input.new }
{
    match made {
        Ok(engine) => do_task(alloc, engine, task, third, input, out),
        Err(fault) => Err(unmade(fault)),
    }
}
