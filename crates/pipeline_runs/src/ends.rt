//! The end of an edge.

ghost use Rattle.std.specs.Prelude.{◌≡◌, ℕ, ◌<◌, Bool, suc, nat_eq, not, ◌&&◌};
ghost use Rattle.activation_bits.specs.Members.{has};
ghost use Rattle.pipeline_time.specs.Bits.{next_word};
ghost use Rattle.pipeline_time.specs.Journal.{Log};
ghost use Rattle.pipeline_time.specs.Running.{Running};
ghost use Rattle.pipeline_time.specs.States.{slot_made};
ghost use Rattle.lisa_activation.specs.Queued.{HasTables};
ghost use Rattle.pipeline_runs.specs.Runs.{Represents};
ghost use Rattle.pipeline_runs.specs.Turns.{IsPlanOf, IsEquipped};
ghost use Rattle.pipeline_runs.specs.Pipelines.{AreWords, NoneBelow, Ends, ShowsHardware, hardware_ended};

use crate::behaves::Behaves;
use crate::edges::word_from;
use crate::pipeline::Pipeline;
use crate::plan::Plan;
use crate::turns::is_free;
use activation_bits::has_bit;

// Whether a word moves on from a stage.
fn moves_on(plan: &Plan, held: u8, flushed: u8, stage: u32) -> bool
    requires { stage < 8 }
    ensures { result ≡ ((not (has held stage) && not (has flushed stage)) && not (nat_eq (suc stage) plan.now.stages)) }
{
    !has_bit(u64::from(held), stage)
        && !has_bit(u64::from(flushed), stage)
        && stage + 1 != plan.stages
}

impl<B: Behaves> Pipeline<B> {
    // The slot that the edge makes. A root that runs in no stage makes one only where the first stage is neither held nor flushed.
    fn slot_made(&self, plan: &Plan) -> Option<u64>
        ensures { (bits : ℕ → ℕ → Bool) (now : Running B.Moment) → Represents (B.moment self.now.edge.store) self.now.edge.queues self.now.edge.slot bits now → result ≡ slot_made (B.core self.now.edge.store) plan.now.root_level now }
    {
        match plan.root_level {
            None => None,
            Some(0) => {
                if is_free(&self.edge.store, 0) {
                    self.edge.slot
                } else {
                    None
                }
            }
            Some(_) => self.edge.slot,
        }
    }

    // The word of a stage when the edge has ended.
    fn next_word(&self, plan: &Plan, slot: Option<u64>, held: u8, flushed: u8, stage: u32) -> u64
        requires stage { stage < 8 }
        requires planned { IsPlanOf (B.core self.now.edge.store) plan.now }
        ensures { (log : Log) (levels : ℕ → ℕ) → Ends (B.core self.now.edge.store) slot held flushed self.now.words log levels → result ≡ next_word (B.core self.now.edge.store) log levels (suc stage) }
    {
        if has_bit(u64::from(held), stage) {
            if has_bit(u64::from(flushed), stage) {
                0
            } else {
                self.words[stage as usize]
            }
        } else if stage > 0 && moves_on(plan, held, flushed, stage - 1) {
            word_from(plan, &self.words, slot, stage - 1)
        } else {
            0
        }
    }

    // The words of all stages when the edge has ended.
    fn next_words(&self, plan: &Plan, slot: Option<u64>, held: u8, flushed: u8) -> [u64; 8]
        requires { IsPlanOf (B.core self.now.edge.store) plan.now }
        ensures { (log : Log) (levels : ℕ → ℕ) → Ends (B.core self.now.edge.store) slot held flushed self.now.words log levels → AreWords result (next_word (B.core self.now.edge.store) log levels) }
    {
        let mut next = [0; 8];
        for stage in 0..8 {
            next[stage as usize] = self.next_word(plan, slot, held, flushed, stage);
        }
        next
    }

    // Ends an edge: what stands moves on, its words too, and the memory is closed.
    pub(crate) fn end(&mut self, plan: &Plan)
        requires { IsEquipped (B.core self.old.edge.store) self.old.edge.queues plan.now }
        ensures shows { (bits : ℕ → ℕ → Bool) (levels : ℕ → ℕ) (now : Running B.Moment) → Represents (B.moment self.old.edge.store) self.old.edge.queues self.old.edge.slot bits now → AreWords self.old.words levels → NoneBelow bits levels now.made → ShowsHardware (B.lasting self.new.edge.store) self.new.edge.queues self.new.words (hardware_ended (B.core self.old.edge.store) bits levels now) }
        ensures tables { HasTables self.old.edge.queues self.new.edge.queues }
        ensures core { B.core self.new.edge.store ≡ B.core self.old.edge.store }
        ensures kept { B.kept self.new.edge.store ≡ B.kept self.old.edge.store }
    {
        let held = self.edge.store.held();
        let flushed = self.edge.store.flushed();
        let slot = self.slot_made(plan);
        self.words = self.next_words(plan, slot, held, flushed);
        self.edge.queues.finish(held, flushed);
        self.edge.store.close();
    }
}
