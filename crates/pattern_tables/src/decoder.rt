//! From a word to the form that has it.

ghost use Rattle.std.specs.Prelude.{◌≡◌, ◌+◌, ◌^◌, ◌<◌, ◌≤◌, Bool, List, length, IfOk};
ghost use Rattle.pattern_tables.specs.Patterns.{AreApart};
ghost use Rattle.pattern_tables.specs.Tables.{HoldPlain, AnswersForm};
ghost use Rattle.pattern_tables.specs.Probes.{probe_bound};
ghost use Rattle.pattern_tables.specs.declared.bit_pattern.BitPattern.{BitPattern};
ghost use Rattle.pattern_tables.specs.declared.table.PatternTable.{PatternTable};

use crate::bit_pattern::BitPattern;
use crate::making::{entries_from, tables_from};
use crate::search::form_in;
use crate::steps::Steps;
use crate::table::PatternTable;
use lisa_words::NoMemory;
use std::alloc::Global;
use std::marker::{Brand, Model};
use std::sync::ledger::{Blank, Ledger};

/// The plain forms in tables, one for each distinct mask.
#[derive(Drop)]
pub struct Decoder {
    tables: Vec<PatternTable>,
}

impl Model for Decoder {
    ghost Value = { List PatternTable };

    ghost view = { λ d. d.tables.items };
}

impl Decoder {
    /// The decoder of the plain ones of these forms, no two of which have a word in common.
    pub fn make(alloc: Global, patterns: &[BitPattern], plain: &[bool]) -> Result<Decoder, NoMemory>
        requires level { length plain.now ≡ length patterns.now }
        requires few { length patterns.now < 2 ^ 32 }
        requires apart { AreApart patterns.now plain.now }
        ensures { IfOk result (HoldPlain patterns.now plain.now) }
    {
        let mut entries = entries_from(alloc, patterns, plain)?;
        entries.sort_by_key(|entry| (entry.mask, entry.pattern))?;
        let tables = tables_from(alloc, &entries)?;
        Ok(Decoder { tables })
    }

    /// The plain form that has the word, which is of the forms' width. It takes no memory.
    pub fn decode<L: Ledger>(&self, word: u64, steps: &mut Steps<L>) -> Option<u32>
        ensures form { AnswersForm self.now word result }
        ensures cost { (patterns : List BitPattern) (plain : List Bool) → HoldPlain patterns plain self.now → steps.new ≤ steps.old + probe_bound patterns plain }
    {
        'tables: for table in &self.tables {
            if let Some(form) = form_in(table, word, steps) {
                return Some(form);
            }
        }
        None
    }

    /// The plain form that has the word, which is of the forms' width, where nobody counts the steps. It takes no memory.
    pub fn form_of(&self, word: u64) -> Option<u32>
        ensures { AnswersForm self.now word result }
    {
        self.form_from::<Brand>(word, Blank::new(1))
    }

    fn form_from<L: Ledger>(&self, word: u64, blank: Blank) -> Option<u32>
        requires name { blank.name ≡ L.name }
        requires parts { (blank.parts ≡ L.parts) × (0 < blank.parts) }
        ensures { AnswersForm self.now word result }
    {
        let mut steps = Steps::<L>::open(blank);
        self.decode(word, &mut steps)
    }
}
