//! The search for a pattern, where each look at one is counted.

ghost use Rattle.std.specs.Prelude.{◌≡◌, ℕ, ◌+◌, ◌-◌, ◌*◌, ◌^◌, ◌<◌, ◌≤◌, length, slice_index, bit_and};
ghost use Rattle.std.specs.Option.{IfSome, IfNone};
ghost use Rattle.instruction_trees.specs.Trees.{In};
ghost use Rattle.pattern_tables.specs.Entries.{entry};
ghost use Rattle.pattern_tables.specs.Tables.{mask_of, entries_of};
ghost use Rattle.pattern_tables.specs.Probes.{look_ups};

use crate::steps::Steps;
use crate::table::PatternTable;
use std::cmp::Ordering;
use std::sync::ledger::Ledger;

// The place of a pattern.
fn place_of<L: Ledger>(table: &PatternTable, key: u64, steps: &mut Steps<L>) -> Option<u32>
    ensures found { IfSome result (λ i. (i < length table.now.patterns.items) × (slice_index table.now.patterns.items i ≡ key)) }
    ensures none { IfNone result ((i : ℕ) → i < length table.now.patterns.items → slice_index table.now.patterns.items i ≡ key → ⊥) }
    ensures more { steps.old ≤ steps.new }
    ensures cost { 2 ^ (steps.new - steps.old) ≤ 2 * length table.now.patterns.items + 1 }
{
    let mut low = 0;
    let mut high = table.size();
    'halves: while low < high {
        let middle = low + (high - low) / 2;
        match table.probe(middle, steps).cmp(&key) {
            Ordering::Less => low = middle + 1,
            Ordering::Greater => high = middle,
            Ordering::Equal => return Some(middle),
        }
    }
    None
}

/// The form of this table that has the word. It takes at most one probe more than the number of its patterns has binary digits.
pub fn form_in<L: Ledger>(table: &PatternTable, word: u64, steps: &mut Steps<L>) -> Option<u32>
    ensures found { IfSome result (λ k. In (entry (mask_of table.now) (bit_and word (mask_of table.now)) k) (entries_of table.now)) }
    ensures none { IfNone result ((k : ℕ) → In (entry (mask_of table.now) (bit_and word (mask_of table.now)) k) (entries_of table.now) → ⊥) }
    ensures cost { steps.new ≤ steps.old + look_ups (length (entries_of table.now)) }
{
    let place = place_of(table, word & table.mask(), steps)?;
    Some(table.form(place))
}
