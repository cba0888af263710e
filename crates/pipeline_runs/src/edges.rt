//! An edge from its begin to the turn of the first stage.

ghost use Rattle.std.specs.Prelude.{◌≡◌, ℕ, ◌<◌, ◌≤◌, Bool, List, [], ◌∷◌, ◌++◌, suc, nat_eq, slice_index, if◌then◌else◌};
ghost use Rattle.std.specs.Option.{unwrap_or};
ghost use Rattle.pipeline_time.specs.Bits.{Hardware, shown};
ghost use Rattle.pipeline_time.specs.Cores.{level_of_slots, main_node};
ghost use Rattle.pipeline_time.specs.Edges.{start, turns};
ghost use Rattle.pipeline_time.specs.Journal.{stands};
ghost use Rattle.pipeline_time.specs.Running.{Running, run_occurrence};
ghost use Rattle.pipeline_time.specs.States.{after, edge_of};
ghost use Rattle.pipeline_runs.specs.Runs.{Represents};
ghost use Rattle.pipeline_runs.specs.Turns.{IsEquipped};
ghost use Rattle.pipeline_runs.specs.Pipelines.{ShowsHardware, HasCome};

use crate::behaves::{Behaves, Edge};
use crate::pipeline::Pipeline;
use crate::plan::Plan;
use crate::runs::run_occurrence;
use crate::turns::turn;

// The word that moves on from a stage: that of the slot where slots are made, and else the stage's.
pub(crate) fn word_from(plan: &Plan, words: &[u64; 8], slot: Option<u64>, stage: u32) -> u64
    requires { stage < 8 }
    ensures { result ≡ (if nat_eq (suc stage) (level_of_slots plan.now.root_level) then unwrap_or slot 0 else slice_index words.now stage) }
{
    if stage + 1 == u32::from(plan.slot_level()) {
        slot.unwrap_or(0)
    } else {
        words[stage as usize]
    }
}

impl<B: Behaves> Pipeline<B> {
    // Begins an edge.
    pub(crate) fn begin(&mut self, pins: &[u64])
        requires { B.takes self.old.edge.store pins.now }
        ensures runs { (hard : Hardware B.Lasting) → ShowsHardware (B.lasting self.old.edge.store) self.old.edge.queues self.old.words hard → Represents (B.moment self.new.edge.store) self.new.edge.queues self.new.edge.slot hard.bits (start (B.core self.old.edge.store) pins.now hard.memory) }
        ensures queues { self.new.edge.queues ≡ self.old.edge.queues }
        ensures words { self.new.words ≡ self.old.words }
        ensures core { B.core self.new.edge.store ≡ B.core self.old.edge.store }
        ensures kept { B.kept self.new.edge.store ≡ B.begun self.old.edge.store }
    {
        self.edge.store.begin(pins);
        self.edge.slot = None;
    }
}

// Runs `main`.
pub(crate) fn run_main<B: Behaves>(plan: &Plan, edge: &mut Edge<B>)
    requires { IsEquipped (B.core edge.old.store) edge.old.queues plan.now }
    ensures runs { (bits : ℕ → ℕ → Bool) (now : Running B.Moment) → Represents (B.moment edge.old.store) edge.old.queues edge.old.slot bits now → Represents (B.moment edge.new.store) edge.new.queues edge.new.slot bits (run_occurrence (B.core edge.old.store) 0 (main_node (B.core edge.old.store)) now) }
    ensures equipped { IsEquipped (B.core edge.new.store) edge.new.queues plan.now }
    ensures core { B.core edge.new.store ≡ B.core edge.old.store }
    ensures kept { B.kept edge.new.store ≡ B.kept edge.old.store }
{
    let main = &plan.occurrences[0];
    run_occurrence(main, 0, edge);
}

// The turns of the stages up to a level, from the last one to the first.
pub(crate) fn turns<B: Behaves>(level: u32, plan: &Plan, words: &[u64; 8], edge: &mut Edge<B>)
    requires level { level ≤ 8 }
    requires equipped { IsEquipped (B.core edge.old.store) edge.old.queues plan.now }
    ensures runs { (first : B.Lasting) (entries : List (List ℕ)) (pins : List ℕ) (now : Running B.Moment) → HasCome (B.core edge.old.store) first entries pins words.now (B.moment edge.old.store) edge.old.queues edge.old.slot level now → HasCome (B.core edge.old.store) first entries pins words.now (B.moment edge.new.store) edge.new.queues edge.new.slot 0 (turns (B.core edge.old.store) (stands (B.core edge.old.store) (after (B.core edge.old.store) first entries).past) level now) }
    ensures equipped { IsEquipped (B.core edge.new.store) edge.new.queues plan.now }
    ensures core { B.core edge.new.store ≡ B.core edge.old.store }
    ensures kept { B.kept edge.new.store ≡ B.kept edge.old.store }
{
    if level > 0 {
        let stage = level - 1;
        let word = word_from(plan, words, edge.slot, stage);
        turn(stage, word, plan, edge);
        turns(stage, plan, words, edge);
    }
}

impl<B: Behaves> Pipeline<B> {
    // An edge as far as its end: `main`, and the turns of the stages from the last one to the first.
    pub(crate) fn run_turns(&mut self, plan: &Plan, pins: &[u64])
        requires pins { B.takes self.old.edge.store pins.now }
        requires equipped { IsEquipped (B.core self.old.edge.store) self.old.edge.queues plan.now }
        ensures comes { (first : B.Lasting) (entries : List (List ℕ)) → ShowsHardware (B.lasting self.old.edge.store) self.old.edge.queues self.old.words (shown (B.core self.old.edge.store) (after (B.core self.old.edge.store) first entries)) → HasCome (B.core self.old.edge.store) first entries pins.now self.new.words (B.moment self.new.edge.store) self.new.edge.queues self.new.edge.slot 0 (edge_of (B.core self.old.edge.store) pins.now (after (B.core self.old.edge.store) first entries)) }
        ensures equipped { IsEquipped (B.core self.new.edge.store) self.new.edge.queues plan.now }
        ensures core { B.core self.new.edge.store ≡ B.core self.old.edge.store }
        ensures kept { B.kept self.new.edge.store ≡ B.begun self.old.edge.store }
    {
        self.begin(pins);
        run_main(plan, &mut self.edge);
        turns(plan.stages, plan, &self.words, &mut self.edge);
    }

    /// One edge, with these values of the pins: `main`, the turns of the stages from the last one to the first, and its end. No memory is
    /// taken.
    pub fn run_edge(&mut self, plan: &Plan, pins: &[u64])
        requires pins { B.takes self.old.edge.store pins.now }
        requires equipped { IsEquipped (B.core self.old.edge.store) self.old.edge.queues plan.now }
        ensures leads { (first : B.Lasting) (entries : List (List ℕ)) → ShowsHardware (B.lasting self.old.edge.store) self.old.edge.queues self.old.words (shown (B.core self.old.edge.store) (after (B.core self.old.edge.store) first entries)) → ShowsHardware (B.lasting self.new.edge.store) self.new.edge.queues self.new.words (shown (B.core self.old.edge.store) (after (B.core self.old.edge.store) first (entries ++ pins.now ∷ []))) }
        ensures equipped { IsEquipped (B.core self.new.edge.store) self.new.edge.queues plan.now }
        ensures core { B.core self.new.edge.store ≡ B.core self.old.edge.store }
        ensures kept { B.kept self.new.edge.store ≡ B.begun self.old.edge.store }
    {
        self.run_turns(plan, pins);
        self.end(plan);
    }
}
