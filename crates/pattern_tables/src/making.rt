//! From masks and patterns to tables.

ghost use Rattle.std.specs.Prelude.{◌≡◌, ◌<◌, ◌≤◌, ◌^◌, ℕ, length, IfOk, slice_index_or};
ghost use Rattle.std.specs.List.{flat_map, AllPairs};
ghost use Rattle.instruction_trees.specs.Trees.{In};
ghost use Rattle.instruction_trees.specs.Forms.{Distinct};
ghost use Rattle.pattern_tables.specs.Entries.{plain_entries, IsBefore};
ghost use Rattle.pattern_tables.specs.Tables.{entries_of, masks_of};
ghost use Rattle.pattern_tables.specs.declared.entry.Entry.{Entry};
ghost use Rattle.pattern_tables.specs.declared.table.PatternTable.{PatternTable};

use crate::bit_pattern::BitPattern;
use crate::entry::Entry;
use crate::table::PatternTable;
use lisa_words::NoMemory;
use std::alloc::Global;

/// The plain forms, in order.
pub fn entries_from(
    alloc: Global,
    patterns: &[BitPattern],
    plain: &[bool],
) -> Result<Vec<Entry>, NoMemory>
    requires level { length plain.now ≡ length patterns.now }
    requires few { length patterns.now < 2 ^ 32 }
    ensures { IfOk result (λ v. v.items ≡ plain_entries 0 patterns.now plain.now) }
{
    let mut entries = Vec::new(alloc);
    'forms: for form in 0..patterns.len() {
        if plain[form] {
            let BitPattern { mask, pattern } = patterns[form];
            entries.push(Entry {
                mask,
                pattern,
                form: form as u32,
            })?;
        }
    }
    Ok(entries)
}

// Where the entries with the mask of this one end.
fn end_of_mask(entries: &[Entry], start: usize) -> usize
    requires { start < length entries.now }
    ensures more { start < result }
    ensures within { result ≤ length entries.now }
    ensures same { (k : ℕ) (d : Entry) → start ≤ k → k < result → (slice_index_or entries.now k d).mask ≡ (slice_index_or entries.now start d).mask }
    ensures end { (d : Entry) → result < length entries.now → (slice_index_or entries.now result d).mask ≡ (slice_index_or entries.now start d).mask → ⊥ }
{
    let mask = entries[start].mask;
    'run: for place in start + 1..entries.len() {
        if entries[place].mask != mask {
            return place;
        }
    }
    entries.len()
}

/// The entries in tables, one for each mask.
pub fn tables_from(alloc: Global, entries: &[Entry]) -> Result<Vec<PatternTable>, NoMemory>
    requires rising { AllPairs IsBefore entries.now }
    requires few { length entries.now < 2 ^ 32 }
    ensures entries { IfOk result (λ v. flat_map entries_of v.items ≡ entries.now) }
    ensures masks { IfOk result (λ v. Distinct (masks_of v.items)) }
    ensures used { IfOk result (λ v. (t : PatternTable) → In t v.items → 0 < length (entries_of t)) }
{
    let mut tables = Vec::new(alloc);
    let mut start = 0;
    'masks: while start < entries.len() {
        let end = end_of_mask(entries, start);
        tables.push(PatternTable::make(alloc, entries[start].mask, &entries[start..end])?)?;
        start = end;
    }
    Ok(tables)
}
