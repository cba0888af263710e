//! What stalls and flushes put behind a draft.
ghost use Rattle.std.specs.Prelude.{◌≡◌, OnOk, [], ◌∷◌};
ghost use Rattle.scene_paths.specs.Lookups.{tree_of};
ghost use Rattle.step_program.specs.Programs.{ToTemp};
ghost use Rattle.step_pieces.specs.Pieces.{always};
ghost use Rattle.step_pieces.specs.Drafts.{leaf_tree};
ghost use Rattle.lowered_statements.specs.Code.{Adds};
ghost use Rattle.lowered_resources.specs.Putting.{flushes, move_to, moving, stalls};
ghost use Rattle.lowered_resources.specs.Code.{lasting_of};

use crate::sites::Placing;
use crate::told::Told;
use lisa_words::{Name, NoMemory, Word};
use scene_paths::Described;
use step_pieces::{Draft, Leaf};
use step_program::{StepExpr, Target};

/// Under a guard it is told that something is so.
pub(crate) fn tell<P: Placing>(
    placing: &P,
    guard: Leaf,
    what: Told,
    draft: &mut Draft,
) -> Result<(), NoMemory>
    ensures { OnOk result (Adds draft.old draft.new (moving (move_to (leaf_tree guard) (ToTemp ((P.places placing.now).temp (lasting_of what))) always ∷ []))) }
{
    let temp = placing.temp(what)?;
    let always = StepExpr::Const(Word { bits: 1, width: 1 });
    draft.step(guard.expression(), Target::Temp(temp), always)?;
    Ok(())
}

/// Puts what holds a stage, under a guard, behind what is there; nothing for what names no stage. The only other answer is want of
/// memory, or of numbers for temps.
#[tactic(auto, using(crate::proofs::Adding::told_adds))]
pub fn stall<P: Placing>(
    described: &Described<'_>,
    placing: &P,
    guard: Leaf,
    stage: &Name,
    draft: &mut Draft,
) -> Result<(), NoMemory>
    ensures { OnOk result (Adds draft.old draft.new (stalls (tree_of described.now) (P.places placing.now) (leaf_tree guard) stage.now)) }
{
    match described.stage_at(stage) {
        None => Ok(()),
        Some(stage) => {
            let level = stage.checked_add(1).ok_or(NoMemory)?;
            tell(placing, guard, Told::Stall(level), draft)?;
            Ok(())
        }
    }
}

/// Puts what drops that which stands in a stage, under a guard, behind what is there; nothing for what names no stage. The only other
/// answer is want of memory, or of numbers for temps.
#[tactic(auto, using(crate::proofs::Adding::told_adds))]
pub fn flush<P: Placing>(
    described: &Described<'_>,
    placing: &P,
    guard: Leaf,
    stage: &Name,
    draft: &mut Draft,
) -> Result<(), NoMemory>
    ensures { OnOk result (Adds draft.old draft.new (flushes (tree_of described.now) (P.places placing.now) (leaf_tree guard) stage.now)) }
{
    match described.stage_at(stage) {
        None => Ok(()),
        Some(stage) => {
            let level = stage.checked_add(1).ok_or(NoMemory)?;
            tell(placing, guard, Told::Flush(level), draft)?;
            Ok(())
        }
    }
}
