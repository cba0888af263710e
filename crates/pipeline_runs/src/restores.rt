//! Pipelines taken to another state.

ghost use Rattle.std.specs.Prelude.{◌≡◌, ℕ, List};
ghost use Rattle.pipeline_time.specs.Bits.{shown};
ghost use Rattle.pipeline_time.specs.States.{after};
ghost use Rattle.lisa_activation.specs.Queued.{count};
ghost use Rattle.pipeline_runs.specs.Turns.{IsEquipped};
ghost use Rattle.pipeline_runs.specs.Pipelines.{AreBits, AreWords, ShowsHardware};

use crate::behaves::Behaves;
use crate::pipeline::Pipeline;
use crate::plan::Plan;
use lisa_activation::{Shows, restore};

impl<B: Behaves> Pipeline<B> {
    /// Takes queues and words to those of a state, by what shows its bits and by its words. What lasts is the memory's.
    pub fn restore<S: Shows>(&mut self, plan: &Plan, shows: &S, words: &[u64; 8])
        requires equipped { IsEquipped (B.core self.old.edge.store) self.old.edge.queues plan.now }
        requires reached { (first : B.Lasting) × ((entries : List (List ℕ)) × AreBits (S.shown shows.now) (count self.old.edge.queues) (shown (B.core self.old.edge.store) (after (B.core self.old.edge.store) first entries)).bits) }
        ensures shows { (first : B.Lasting) (entries : List (List ℕ)) → B.lasting self.old.edge.store ≡ (after (B.core self.old.edge.store) first entries).memory → AreBits (S.shown shows.now) (count self.old.edge.queues) (shown (B.core self.old.edge.store) (after (B.core self.old.edge.store) first entries)).bits → AreWords words.now (shown (B.core self.old.edge.store) (after (B.core self.old.edge.store) first entries)).words → ShowsHardware (B.lasting self.old.edge.store) self.new.edge.queues self.new.words (shown (B.core self.old.edge.store) (after (B.core self.old.edge.store) first entries)) }
        ensures equipped { IsEquipped (B.core self.new.edge.store) self.new.edge.queues plan.now }
        ensures store { self.new.edge.store ≡ self.old.edge.store }
    {
        restore(&mut self.edge.queues, shows);
        self.words = *words;
    }
}
