//! The temps of time, and steps that give them values.

ghost use Rattle.std.specs.Prelude.{◌≡◌, ◌≤◌, [], ◌∷◌, IfOk, OnOk};
ghost use Rattle.step_program.specs.Programs.{ToItem, ToTemp, expr_tree};
ghost use Rattle.step_pieces.specs.Pieces.{always};
ghost use Rattle.step_pieces.specs.Drafts.{leaf_tree};
ghost use Rattle.lowered_time.specs.Pieces.{steps, given, holding};
ghost use Rattle.lowered_time.specs.Building.{held_at, open_at, recorded_at, taken_at, slot_at};
ghost use Rattle.lowered_time.specs.Code.{Adds, Makes};

use crate::expressions::always;
use lisa_words::NoMemory;
use pipeline_runs::Plan;
use step_pieces::{Draft, Leaf};
use step_program::{Step, StepExpr, Target};

/// The temp that tells whether the root took a word that decodes.
pub fn taken_at() -> u32
    ensures { result ≡ taken_at }
{
    0
}

/// The temp with that word.
pub fn slot_at() -> u32
    ensures { result ≡ slot_at }
{
    1
}

/// The temp that tells whether a level is held.
pub fn held_at(level: u8) -> u32
    ensures { result ≡ held_at level }
{
    2 + 2 * u32::from(level)
}

/// The temp that tells whether a level is neither held nor flushed.
pub fn open_at(level: u8) -> u32
    ensures { result ≡ open_at level }
{
    held_at(level) + 1
}

/// The temp that tells whether an occurrence was recorded in the edge.
pub fn recorded_at(plan: &Plan, number: u32) -> Result<u32, NoMemory>
    requires { plan.now.stages ≤ 8 }
    ensures { IfOk result (λ temp. temp ≡ recorded_at plan.now.stages number) }
{
    let from = 4 + 2 * plan.stages;
    match from.checked_add(number) {
        Some(temp) => Ok(temp),
        None => Err(NoMemory),
    }
}

// A temp gets a value where the guard isn't 0.
pub(crate) fn give(
    guard: Leaf,
    temp: u32,
    value: StepExpr,
    draft: &mut Draft,
) -> Result<(), NoMemory>
    ensures { OnOk result (Adds (steps (given (leaf_tree guard) (ToTemp temp) (expr_tree value) ∷ [])) draft.old draft.new) }
{
    draft.push(Step {
        guard: guard.expression(),
        target: Target::Temp(temp),
        value,
    })
}

// An item gets a value.
pub(crate) fn give_item(place: u32, value: StepExpr, draft: &mut Draft) -> Result<(), NoMemory>
    ensures { OnOk result (Adds (steps (given always (ToItem place) (expr_tree value) ∷ [])) draft.old draft.new) }
{
    draft.push(Step {
        guard: always().expression(),
        target: Target::Item(place),
        value,
    })
}

// One temp more, which holds a bit.
pub(crate) fn hold_bit(value: StepExpr, draft: &mut Draft) -> Result<Leaf, NoMemory>
    ensures { IfOk result (λ out. Makes (holding 1 (expr_tree value)) draft.old draft.new out) }
{
    let temp = draft.hold(1, value)?;
    Ok(Leaf::Temp(temp))
}
