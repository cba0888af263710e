//! The turn of a stage.

ghost use Rattle.std.specs.List.{fold};
ghost use Rattle.std.specs.Prelude.{◌≡◌, ℕ, suc, ◌<◌, Bool, true, not, ◌&&◌, Option, Some, length, slice_get};
ghost use Rattle.pipeline_time.specs.Edges.{Standing, is_held, is_flushed, waiting, run_due, turn};
ghost use Rattle.pipeline_time.specs.Running.{Running, run_occurrence, word_below};
ghost use Rattle.lisa_activation.specs.Queued.{first_above, is_due};
ghost use Rattle.pipeline_runs.specs.Runs.{node_of, Represents};
ghost use Rattle.pipeline_runs.specs.Turns.{IsEquipped, WaitAs, due_from};
ghost use Rattle.pipeline_runs.specs.declared.tree.Occurrence.{Occurrence};

use crate::behaves::{Behaves, Edge};
use crate::plan::Plan;
use crate::runs::run_occurrence;
use activation_bits::has_bit;

fn word_below(past: bool, word: u64) -> u64
    ensures { result ≡ word_below past word }
{
    if past { word } else { 0 }
}

// Runs one occurrence that is due.
fn run_one<B: Behaves>(stage: u32, word: u64, number: u32, plan: &Plan, edge: &mut Edge<B>)
    requires stage { stage < 8 }
    requires equipped { IsEquipped (B.core edge.old.store) edge.old.queues plan.now }
    requires is { is_due edge.old.queues stage number ≡ true }
    ensures runs { (bits : ℕ → ℕ → Bool) (now : Running B.Moment) → Represents (B.moment edge.old.store) edge.old.queues edge.old.slot bits now → (o : Occurrence) → slice_get plan.now.occurrences.items number ≡ Some o → Represents (B.moment edge.new.store) edge.new.queues edge.new.slot bits (run_occurrence (B.core edge.old.store) (word_below o.past word) (node_of o) now) }
    ensures within { number < length plan.now.occurrences.items }
    ensures equipped { IsEquipped (B.core edge.new.store) edge.new.queues plan.now }
    ensures same { (other : ℕ) → is_due edge.new.queues stage other ≡ is_due edge.old.queues stage other }
    ensures core { B.core edge.new.store ≡ B.core edge.old.store }
    ensures kept { B.kept edge.new.store ≡ B.kept edge.old.store }
{
    let it = &plan.occurrences[number as usize];
    run_occurrence(it, word_below(it.past, word), edge);
}

/// Runs what is due in a stage above an occurrence, in order of numbers. What is past the root runs with the word, and all else with 0.
pub fn turn_from<B: Behaves>(
    stage: u32,
    word: u64,
    after: Option<u32>,
    plan: &Plan,
    edge: &mut Edge<B>,
)
    requires stage { stage < 8 }
    requires equipped { IsEquipped (B.core edge.old.store) edge.old.queues plan.now }
    ensures runs { (bits : ℕ → ℕ → Bool) (now : Running B.Moment) (words : ℕ → Option ℕ) → Represents (B.moment edge.old.store) edge.old.queues edge.old.slot bits now → WaitAs (B.core edge.old.store) edge.old.queues stage word words plan.now.occurrences.items → Represents (B.moment edge.new.store) edge.new.queues edge.new.slot bits (fold (run_due (B.core edge.old.store) words) now (due_from (B.core edge.old.store) words stage (first_above after) plan.now.occurrences.items)) }
    ensures equipped { IsEquipped (B.core edge.new.store) edge.new.queues plan.now }
    ensures core { B.core edge.new.store ≡ B.core edge.old.store }
    ensures kept { B.kept edge.new.store ≡ B.kept edge.old.store }
{
    if let Some(number) = edge.queues.due(stage, after) {
        run_one(stage, word, number, plan, edge);
        turn_from(stage, word, Some(number), plan, edge);
    }
}

/// Whether a stage is neither held nor flushed so far.
pub(crate) fn is_free<B: Behaves>(store: &B, stage: u32) -> bool
    requires { stage < 8 }
    ensures { result ≡ (not (is_held ((B.core store.now).stalled (B.moment store.now)) (suc stage)) && not (is_flushed ((B.core store.now).flushed (B.moment store.now)) (suc stage))) }
{
    !has_bit(u64::from(store.held()), stage) && !has_bit(u64::from(store.flushed()), stage)
}

/// The turn of a stage: what is due there runs, unless the stage is held or flushed.
pub fn turn<B: Behaves>(stage: u32, word: u64, plan: &Plan, edge: &mut Edge<B>)
    requires stage { stage < 8 }
    requires equipped { IsEquipped (B.core edge.old.store) edge.old.queues plan.now }
    ensures runs { (bits : ℕ → ℕ → Bool) (now : Running B.Moment) (stands : Standing) → Represents (B.moment edge.old.store) edge.old.queues edge.old.slot bits now → WaitAs (B.core edge.old.store) edge.old.queues stage word (waiting (B.core edge.old.store) stands (suc stage) now) plan.now.occurrences.items → Represents (B.moment edge.new.store) edge.new.queues edge.new.slot bits (turn (B.core edge.old.store) stands (suc stage) now) }
    ensures equipped { IsEquipped (B.core edge.new.store) edge.new.queues plan.now }
    ensures core { B.core edge.new.store ≡ B.core edge.old.store }
    ensures kept { B.kept edge.new.store ≡ B.kept edge.old.store }
{
    if is_free(&edge.store, stage) {
        turn_from(stage, word, None, plan, edge);
    }
}
