// Look-ups in tables of patterns, and how many probes they take at most.
ghost use Rattle.std.specs.Prelude.{◌≡◌, ◌+◌, ◌<◌, ◌≤◌, length, IfOk};
ghost use Rattle.pattern_tables.specs.Tables.{entries_of};

use pattern_tables::{Entry, PatternTable, Steps, form_in};
use std::alloc::Global;
use std::marker::Brand;
use std::sync::ledger::{Blank, Ledger};
use std::test::Fail;

// The table of forms whose patterns are their numbers, in words of 11 bits.
fn table(alloc: Global, size: u32) -> Result<PatternTable, Fail>
    requires { size ≤ 1024 }
    ensures { IfOk result (λ t. length (entries_of t) ≡ size) }
{
    let mut entries = Vec::new(alloc);
    'forms: for form in 0..size {
        entries.push(Entry {
            mask: 2047,
            pattern: u64::from(form),
            form,
        })?;
    }
    Ok(PatternTable::make(alloc, 2047, &entries)?)
}

// The form that has a word, of three of one mask.
fn of_three<L: Ledger>(table: &PatternTable, word: u64, steps: &mut Steps<L>) -> Option<u32>
    requires { length (entries_of table.now) ≡ 3 }
    ensures { steps.new ≤ steps.old + 3 }
{
    form_in(table, word, steps)
}

// The form that has a word, of 1,024 of one mask.
fn of_many<L: Ledger>(table: &PatternTable, word: u64, steps: &mut Steps<L>) -> Option<u32>
    requires { length (entries_of table.now) ≡ 1024 }
    ensures { steps.new ≤ steps.old + 12 }
{
    form_in(table, word, steps)
}

fn three_counted<L: Ledger>(table: &PatternTable, word: u64, blank: Blank) -> Option<u32>
    requires size { length (entries_of table.now) ≡ 3 }
    requires name { blank.name ≡ L.name }
    requires parts { (blank.parts ≡ L.parts) × (0 < blank.parts) }
{
    of_three(table, word, &mut Steps::<L>::open(blank))
}

fn among_three(table: &PatternTable, word: u64) -> Option<u32>
    requires { length (entries_of table.now) ≡ 3 }
{
    three_counted::<Brand>(table, word, Blank::new(1))
}

fn many_counted<L: Ledger>(table: &PatternTable, word: u64, blank: Blank) -> Option<u32>
    requires size { length (entries_of table.now) ≡ 1024 }
    requires name { blank.name ≡ L.name }
    requires parts { (blank.parts ≡ L.parts) × (0 < blank.parts) }
{
    of_many(table, word, &mut Steps::<L>::open(blank))
}

fn among_many(table: &PatternTable, word: u64) -> Option<u32>
    requires { length (entries_of table.now) ≡ 1024 }
{
    many_counted::<Brand>(table, word, Blank::new(1))
}

#[test]
fn three_patterns_take_three_probes(rt: HostRuntime) -> Result<(), Fail> {
    let table = table(rt.alloc(), 3)?;
    for word in 0..256 {
        let expected = if word < 3 { Some(word as u32) } else { None };
        assert_eq!(rt; among_three(&table, word), expected);
    }
    Ok(())
}

#[test]
fn many_patterns_take_twelve_probes(rt: HostRuntime) -> Result<(), Fail> {
    let table = table(rt.alloc(), 1024)?;
    for (word, expected) in [(0, Some(0)), (1023, Some(1023)), (1024, None)] {
        assert_eq!(rt; among_many(&table, word), expected);
    }
    Ok(())
}
