//! The steps of an edge.

ghost use Rattle.std.specs.Prelude.{◌≡◌, ◌≤◌, OnOk};
ghost use Rattle.pipeline_time.specs.Sound.{IsSound};
ghost use Rattle.pipeline_runs.specs.Runs.{acts_of};
ghost use Rattle.pipeline_runs.specs.Turns.{IsPlanOf};
ghost use Rattle.lowered_time.specs.Building.{main_run, edge};
ghost use Rattle.lowered_time.specs.Code.{Adds};

use crate::end_steps::set_ends;
use crate::expressions::always;
use crate::occurrences::{Under, occurrence, own_under};
use crate::parts::Parts;
use crate::turn_steps::turns;
use lisa_words::NoMemory;
use pipeline_runs::{Plan, Tree};
use std::alloc::Global;
use step_pieces::Draft;

// `main`, with its items.
fn run_main<P: Parts>(
    alloc: Global,
    parts: &P,
    plan: &Plan,
    acts: &Tree,
    draft: &mut Draft,
) -> Result<(), NoMemory>
    requires planned { IsPlanOf (P.core parts.now) plan.now }
    requires acts { acts_of acts.now ≡ (P.core parts.now).acts }
    ensures { OnOk result (Adds (main_run (P.core parts.now) (P.operations parts.now) (P.layout parts.now)) draft.old draft.new) }
{
    let under = Under {
        row: None,
        guard: always(),
    };
    let mine = own_under(parts, 0, false, under);
    occurrence(alloc, parts, plan, 0, mine, 0, acts, draft)
}

/// Puts the steps of an edge behind a draft: `main`, the turns of the stages from the last one to the first, what bits and words become,
/// and the boundaries. The only other answer is want of memory, or of numbers for temps.
pub fn lower_edge<P: Parts>(
    alloc: Global,
    parts: &P,
    plan: &Plan,
    draft: &mut Draft,
) -> Result<(), NoMemory>
    requires sound { IsSound (P.core parts.now) }
    requires planned { IsPlanOf (P.core parts.now) plan.now }
    ensures { OnOk result (Adds (edge (P.core parts.now) (P.operations parts.now) (P.layout parts.now)) draft.old draft.new) }
{
    let acts = &plan.occurrences[0].own;
    let stages = plan.stages as u8;
    run_main(alloc, parts, plan, acts, draft)?;
    turns(alloc, parts, plan, stages, acts, draft)?;
    set_ends(alloc, parts, plan, stages, draft)?;
    parts.close(alloc, draft)
}
