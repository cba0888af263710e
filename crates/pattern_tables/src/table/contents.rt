//! Tables of forms are made, and read.

ghost use Rattle.std.specs.Prelude.{◌≡◌, ◌<◌, ◌+◌, ◌^◌, length, map, slice_index_or, IfOk};
ghost use Rattle.pattern_tables.specs.Rising.{IsRising};
ghost use Rattle.pattern_tables.specs.Entries.{entry};
ghost use Rattle.pattern_tables.specs.Tables.{mask_of, entries_of};
ghost use Rattle.pattern_tables.specs.declared.entry.Entry.{Entry};

use crate::entry::Entry;
use crate::steps::Steps;
use crate::table::PatternTable;
use lisa_words::NoMemory;
use std::alloc::Global;
use std::sync::ledger::Ledger;

impl PatternTable {
    /// The table of these forms, which have one mask, in the order of their patterns.
    pub fn make(alloc: Global, mask: u64, entries: &[Entry]) -> Result<PatternTable, NoMemory>
        requires rising { IsRising (map (λ e. e.pattern) entries.now) }
        requires few { length entries.now < 2 ^ 32 }
        ensures mask { IfOk result (λ t. mask_of t ≡ mask) }
        ensures entries { IfOk result (λ t. entries_of t ≡ map (λ e. entry mask e.pattern e.form) entries.now) }
    {
        let mut patterns = Vec::new(alloc);
        let mut forms = Vec::new(alloc);
        'entries: for entry in entries {
            patterns.push(entry.pattern)?;
            forms.push(entry.form)?;
        }
        Ok(PatternTable {
            mask,
            patterns,
            forms,
        })
    }

    /// The mask that all of them have.
    pub fn mask(&self) -> u64
        ensures { result ≡ mask_of self.now }
    {
        self.mask
    }

    /// How many patterns there are.
    pub fn size(&self) -> u32
        ensures { result ≡ length (entries_of self.now) }
    {
        self.patterns.len() as u32
    }

    /// The number of the form whose pattern stands at this place.
    pub fn form(&self, place: u32) -> u32
        requires { place < length (entries_of self.now) }
        ensures { (d : Entry) → result ≡ (slice_index_or (entries_of self.now) place d).form }
    {
        self.forms[place as usize]
    }

    /// The pattern at this place. It takes one step.
    pub fn probe<L: Ledger>(&self, place: u32, steps: &mut Steps<L>) -> u64
        requires { place < length (entries_of self.now) }
        ensures pattern { (d : Entry) → result ≡ (slice_index_or (entries_of self.now) place d).pattern }
        ensures step { steps.new ≡ steps.old + 1 }
    {
        steps.tick();
        self.patterns[place as usize]
    }
}
