//! An edge, and what each stage did in it.

ghost use Rattle.std.specs.Prelude.{◌≡◌, ℕ, ◌<◌, List, [], ◌∷◌, ◌++◌, not, ◌&&◌, ◌||◌, nat_eq};
ghost use Rattle.activation_bits.specs.Members.{has};
ghost use Rattle.pipeline_time.specs.Bits.{shown};
ghost use Rattle.pipeline_time.specs.Cores.{Core};
ghost use Rattle.pipeline_time.specs.Sound.{IsSound};
ghost use Rattle.pipeline_time.specs.States.{after, edge_of, log_of};
ghost use Rattle.lisa_activation.specs.Queued.{is_due};
ghost use Rattle.pipeline_runs.specs.Turns.{IsEquipped};
ghost use Rattle.pipeline_runs.specs.Pipelines.{ShowsHardware, HasCome};
ghost use Rattle.pipeline_runs.specs.Seeing.{TellsSome, IsSeen, WhatIsDueRuns};

use crate::behaves::{Behaves, Edge};
use crate::pipeline::Pipeline;
use crate::plan::Plan;
use crate::seen::Seen;
use activation_bits::has_bit;
use lisa_activation::Queues;

/// Something runs in a stage exactly where it is neither held nor flushed, and something is due there.
pub fn what_is_due_runs<R, M>()
    ensures { (core : Core R M) → IsSound core → WhatIsDueRuns core }
{}

/// A set of stages, one bit for each, and one more.
pub fn with_stage(stages: u8, stage: u32) -> u8
    requires { stage < 8 }
    ensures { (other : ℕ) → has result other ≡ (has stages other || nat_eq other stage) }
{
    stages | (1 << stage)
}

// Whether something is due in a stage that is neither held nor flushed.
fn has_run(queues: &Queues, held: u8, flushed: u8, stage: u32) -> bool
    requires { stage < 8 }
    ensures { TellsSome (λ number. (not (has held stage) && not (has flushed stage)) && is_due queues.now stage number) result }
{
    !has_bit(u64::from(held), stage)
        && !has_bit(u64::from(flushed), stage)
        && queues.due(stage, None).is_some()
}

// The stages in which something is due and that are neither held nor flushed.
fn ran_stages(queues: &Queues, held: u8, flushed: u8) -> u8
    ensures { (stage : ℕ) → stage < 8 → TellsSome (λ number. (not (has held stage) && not (has flushed stage)) && is_due queues.now stage number) (has result stage) }
{
    let mut stages = 0;
    'each: for stage in 0..8 {
        if has_run(queues, held, flushed, stage) {
            stages = with_stage(stages, stage);
        }
    }
    stages
}

// What each stage did, when the turns of all have come.
fn seen_at_end<B: Behaves>(plan: &Plan, edge: &Edge<B>) -> Seen
    requires { IsEquipped (B.core edge.now.store) edge.now.queues plan.now }
    ensures { (first : B.Lasting) (entries : List (List ℕ)) (pins words : List ℕ) → HasCome (B.core edge.now.store) first entries pins words (B.moment edge.now.store) edge.now.queues edge.now.slot 0 (edge_of (B.core edge.now.store) pins (after (B.core edge.now.store) first entries)) → IsSeen (B.core edge.now.store) (log_of (B.core edge.now.store) (edge_of (B.core edge.now.store) pins (after (B.core edge.now.store) first entries))) result }
{
    let _stages = plan.stages;
    let held = edge.store.held();
    let flushed = edge.store.flushed();
    Seen {
        ran: ran_stages(&edge.queues, held, flushed),
        held,
        flushed,
    }
}

impl<B: Behaves> Pipeline<B> {
    /// One edge, as `run_edge` makes it. Answers what each stage did in it.
    pub fn run_edge_seen(&mut self, plan: &Plan, pins: &[u64]) -> Seen
        requires pins { B.takes self.old.edge.store pins.now }
        requires equipped { IsEquipped (B.core self.old.edge.store) self.old.edge.queues plan.now }
        ensures leads { (first : B.Lasting) (entries : List (List ℕ)) → ShowsHardware (B.lasting self.old.edge.store) self.old.edge.queues self.old.words (shown (B.core self.old.edge.store) (after (B.core self.old.edge.store) first entries)) → ShowsHardware (B.lasting self.new.edge.store) self.new.edge.queues self.new.words (shown (B.core self.old.edge.store) (after (B.core self.old.edge.store) first (entries ++ pins.now ∷ []))) }
        ensures seen { (first : B.Lasting) (entries : List (List ℕ)) → ShowsHardware (B.lasting self.old.edge.store) self.old.edge.queues self.old.words (shown (B.core self.old.edge.store) (after (B.core self.old.edge.store) first entries)) → IsSeen (B.core self.old.edge.store) (log_of (B.core self.old.edge.store) (edge_of (B.core self.old.edge.store) pins.now (after (B.core self.old.edge.store) first entries))) result }
        ensures equipped { IsEquipped (B.core self.new.edge.store) self.new.edge.queues plan.now }
        ensures core { B.core self.new.edge.store ≡ B.core self.old.edge.store }
        ensures kept { B.kept self.new.edge.store ≡ B.begun self.old.edge.store }
    {
        self.run_turns(plan, pins);
        let seen = seen_at_end(plan, &self.edge);
        self.end(plan);
        seen
    }
}
