//! What an edge does to the queues.

ghost use Rattle.std.specs.Prelude.{◌≡◌, ℕ, ◌+◌, ◌*◌, ◌/◌, ◌%◌, ◌<◌, ◌≤◌, ◌↔◌, length, true, false, ◌&&◌, ◌||◌, nat_eq, slice_index, slice_get, MatchOption};
ghost use Rattle.activation_bits.specs.Members.{has};
ghost use Rattle.lisa_activation.specs.Queued.{bit_of, due_at, above, count, standing, is_due, first_above, IsFinishedAt, IsEntered, IsFinished};

use crate::columns::Column;
use crate::kept::Queues;
use activation_bits::least_from;

// Records an occurrence under an activator of a level.
fn enter_at(columns: &mut [Column], level: u8, number: usize)
    requires level { level ≤ 8 }
    requires number { number < 64 * length columns.old }
    ensures entered { (stage other : ℕ) → stage < 8 → bit_of (λ column. slice_index column.entered stage) columns.new other ≡ (bit_of (λ column. slice_index column.entered stage) columns.old other || (nat_eq (stage + 1) level && nat_eq other number)) }
    ensures first { (other : ℕ) → bit_of (λ column. column.first) columns.new other ≡ (bit_of (λ column. column.first) columns.old other || (nat_eq level 0 && nat_eq other number)) }
    ensures standing { (stage other : ℕ) → bit_of (λ column. slice_index column.standing stage) columns.new other ≡ bit_of (λ column. slice_index column.standing stage) columns.old other }
    ensures own { (stage other : ℕ) → bit_of (λ column. slice_index column.own stage) columns.new other ≡ bit_of (λ column. slice_index column.own stage) columns.old other }
{
    columns[number / 64].enter(level, (number % 64) as u32);
}

// Where the search for a number from a first one on begins in a column.
fn start_in(place: usize, first: usize) -> u32
    requires { first / 64 ≤ place }
    ensures within { result < 64 }
    ensures start { (number : ℕ) → number / 64 ≡ place → (first ≤ number) ↔ (result ≤ number % 64) }
{
    if place == first / 64 {
        (first % 64) as u32
    } else {
        0
    }
}

// Those of a column that are due in a stage.
fn due_word(columns: &[Column], place: usize, stage: u32) -> u64
    requires place { place < length columns.now }
    requires stage { stage < 8 }
    ensures { (number : ℕ) → number / 64 ≡ place → due_at columns.now stage number ≡ has result (number % 64) }
{
    columns[place].due(stage)
}

// The least number from a first one on that is due in a stage.
fn least_due(columns: &[Column], stage: u32, first: usize) -> Option<u32>
    requires stage { stage < 8 }
    requires few { length columns.now ≤ 65 }
    ensures { MatchOption result ((number : ℕ) → first ≤ number → due_at columns.now stage number ≡ false) (λ found. (first ≤ found) × (due_at columns.now stage found ≡ true) × ((number : ℕ) → first ≤ number → number < found → due_at columns.now stage number ≡ false)) }
{
    for place in first / 64..columns.len() {
        let word = due_word(columns, place, stage);
        if let Some(bit) = least_from(word, start_in(place, first)) {
            return Some(place as u32 * 64 + bit);
        }
    }
    None
}

// Ends an edge.
fn finish_each(columns: &mut [Column], held: u8, flushed: u8)
    ensures { (place : ℕ) → IsFinishedAt held flushed (slice_get columns.old place) (slice_get columns.new place) }
{
    for column in columns.iter_mut() {
        column.finish(held, flushed);
    }
}

impl Queues {
    /// Whether an activation of the occurrence stands in the stage.
    pub fn stands(&self, stage: u32, occurrence: u32) -> bool
        requires stage { stage < 8 }
        requires occurrence { occurrence < count self.now }
        ensures { result ≡ standing self.now stage occurrence }
    {
        self.columns[occurrence as usize / 64].stands(stage, occurrence % 64)
    }

    // The level of an occurrence's activator.
    pub(crate) fn above(&self, occurrence: u32) -> u8
        requires { occurrence < count self.now }
        ensures is { result ≡ above self.now occurrence }
        ensures within { result ≤ 8 }
    {
        self.placings[occurrence as usize].above
    }

    /// Records an occurrence: in its activator's stage, or, where that has none, for the first stage in this edge alone.
    pub fn enter(&mut self, occurrence: u32)
        requires { occurrence < count self.old }
        ensures { IsEntered self.old self.new occurrence }
    {
        let level = self.above(occurrence);
        enter_at(&mut self.columns, level, occurrence as usize);
    }

    /// The least occurrence above another that is due in the stage: it runs there, and stands there or was recorded for it.
    pub fn due(&self, stage: u32, after: Option<u32>) -> Option<u32>
        requires { stage < 8 }
        ensures { MatchOption result ((number : ℕ) → first_above after ≤ number → is_due self.now stage number ≡ false) (λ found. (first_above after ≤ found) × (is_due self.now stage found ≡ true) × ((number : ℕ) → first_above after ≤ number → number < found → is_due self.now stage number ≡ false)) }
    {
        let first = match after {
            Some(number) => number as usize + 1,
            None => 0,
        };
        least_due(&self.columns, stage, first)
    }

    /// Ends an edge, by a bit for each stage that was held and that was flushed: what was held and not flushed stays, and what stood or was
    /// recorded in a stage that was neither moves on, unless it ran there.
    pub fn finish(&mut self, held: u8, flushed: u8)
        ensures { IsFinished self.old self.new held flushed }
    {
        finish_each(&mut self.columns, held, flushed);
    }
}
