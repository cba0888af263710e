//! Runs items.

ghost use Rattle.std.specs.Prelude.{◌≡◌, ℕ, ◌<◌, Bool, ◌&&◌, if◌then◌else◌};
ghost use Rattle.pipeline_time.specs.Cores.{above_of};
ghost use Rattle.pipeline_time.specs.Running.{Running, word_below, behavior, activate, run, run_occurrence};
ghost use Rattle.lisa_activation.specs.Queued.{count, is_due};
ghost use Rattle.lisa_activation.specs.Shown.{AreQueuesOf};
ghost use Rattle.pipeline_runs.specs.Runs.{acts_of, node_of, Represents, IsReady, Stays};

use crate::behaves::{Behaves, Edge};
use crate::tree::{Occurrence, Tree};

// The word with which an occurrence runs: the root takes its own.
fn own_word<B: Behaves>(store: &B, number: u32, past: bool, word: u64) -> u64
    ensures { result ≡ (if (B.core store.now).is_root number then (B.core store.now).fetch (B.moment store.now) else word_below past word) }
{
    if store.is_root(number) {
        store.fetch()
    } else if past {
        word
    } else {
        0
    }
}

// Whether the root took a word that some instruction has.
fn takes<B: Behaves>(store: &B, number: u32, word: u64) -> bool
    ensures { result ≡ ((B.core store.now).is_root number && (B.core store.now).decodes word) }
{
    store.is_root(number) && store.decodes(word)
}

// The BEHAVIOR of an occurrence that has this word.
fn behave_once<B: Behaves>(number: u32, word: u64, edge: &mut Edge<B>)
    ensures runs { (bits : ℕ → ℕ → Bool) (now : Running B.Moment) → Represents (B.moment edge.old.store) edge.old.queues edge.old.slot bits now → Represents (B.moment edge.new.store) edge.new.queues edge.new.slot bits (behavior (B.core edge.old.store) number word now) }
    ensures queues { edge.new.queues ≡ edge.old.queues }
    ensures core { B.core edge.new.store ≡ B.core edge.old.store }
    ensures kept { B.kept edge.new.store ≡ B.kept edge.old.store }
{
    edge.store.behave(number, word);
    if takes(&edge.store, number, word) {
        edge.slot = Some(word);
    }
}

// Records an occurrence under an activator of a level.
fn record<B: Behaves>(here: u8, number: u32, edge: &mut Edge<B>)
    requires within { number < count edge.old.queues }
    requires activator { above_of (B.core edge.old.store) number ≡ here }
    requires tables { AreQueuesOf (B.core edge.old.store) edge.old.queues }
    ensures runs { (bits : ℕ → ℕ → Bool) (now : Running B.Moment) (own : ℕ) → Represents (B.moment edge.old.store) edge.old.queues edge.old.slot bits now → Represents (B.moment edge.new.store) edge.new.queues edge.new.slot bits (activate (B.core edge.old.store) here number own now) }
    ensures store { edge.new.store ≡ edge.old.store }
    ensures tables { AreQueuesOf (B.core edge.old.store) edge.new.queues }
    ensures count { count edge.new.queues ≡ count edge.old.queues }
    ensures due { 0 < here → (stage other : ℕ) → is_due edge.new.queues stage other ≡ is_due edge.old.queues stage other }
{
    edge.queues.enter(number);
}

/// Runs the items under an activator that runs at a level with a word, in listed order: what runs at that level at once, and what runs at
/// another one is recorded.
pub fn run<B: Behaves>(here: u8, word: u64, acts: &Tree, edge: &mut Edge<B>)
    requires { IsReady (B.core edge.old.store) edge.old.queues here (acts_of acts.now) }
    ensures runs { (bits : ℕ → ℕ → Bool) (now : Running B.Moment) → Represents (B.moment edge.old.store) edge.old.queues edge.old.slot bits now → Represents (B.moment edge.new.store) edge.new.queues edge.new.slot bits (run (B.core edge.old.store) here word (acts_of acts.now) now) }
    ensures stays { Stays (B.core edge.old.store) (B.core edge.new.store) edge.old.queues edge.new.queues }
    ensures kept { B.kept edge.new.store ≡ B.kept edge.old.store }
    ensures due { 0 < here → (stage other : ℕ) → is_due edge.new.queues stage other ≡ is_due edge.old.queues stage other }
{
    match acts {
        Tree::Nothing => {}
        Tree::Item(number, level, past, own, rest) => {
            if !edge.store.chooses(*number, word) {
                run(here, word, rest, edge);
            } else if *level == here {
                let mine = own_word(&edge.store, *number, *past, word);
                behave_once(*number, mine, edge);
                run(here, mine, own, edge);
                run(here, word, rest, edge);
            } else {
                record(here, *number, edge);
                run(here, word, rest, edge);
            }
        }
        Tree::If(number, test, taken, other, rest) => {
            if edge.store.holds(*number, *test, word) {
                run(here, word, taken, edge);
                run(here, word, rest, edge);
            } else {
                run(here, word, other, edge);
                run(here, word, rest, edge);
            }
        }
    }
}

/// Runs an occurrence that was activated with a word: its BEHAVIOR, and then its items.
pub fn run_occurrence<B: Behaves>(occurrence: &Occurrence, word: u64, edge: &mut Edge<B>)
    requires { IsReady (B.core edge.old.store) edge.old.queues occurrence.now.level (acts_of occurrence.now.own) }
    ensures runs { (bits : ℕ → ℕ → Bool) (now : Running B.Moment) → Represents (B.moment edge.old.store) edge.old.queues edge.old.slot bits now → Represents (B.moment edge.new.store) edge.new.queues edge.new.slot bits (run_occurrence (B.core edge.old.store) word (node_of occurrence.now) now) }
    ensures stays { Stays (B.core edge.old.store) (B.core edge.new.store) edge.old.queues edge.new.queues }
    ensures kept { B.kept edge.new.store ≡ B.kept edge.old.store }
    ensures due { 0 < occurrence.now.level → (stage other : ℕ) → is_due edge.new.queues stage other ≡ is_due edge.old.queues stage other }
{
    let mine = own_word(&edge.store, occurrence.number, occurrence.past, word);
    behave_once(occurrence.number, mine, edge);
    run(occurrence.level, mine, &occurrence.own, edge);
}
