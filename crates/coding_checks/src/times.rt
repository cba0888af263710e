//! How often names stand in the coding and in the syntax of an operation, in tables.

ghost use Rattle.std.specs.Prelude.{◌≡◌, IfOk, OnOk, List, ℕ, sum_by, map, option_map};
ghost use Rattle.name_tables.specs.TableViews.{value_of};
ghost use Rattle.lisa_tree.specs.Descriptions.{coding_tree, section_tree};
ghost use Rattle.lisa_tree.specs.Same.{same_name};
ghost use Rattle.lisa_tree.specs.Operations.{coding_in, syntax_in};
ghost use Rattle.coding_checks.specs.Written.{is_coded, is_shown, item_count, part_count, coded_count, shown_count, times_for, again, more_times, is_once, is_written};

use crate::values::Times;
use coded_names::CodedNames;
use lisa_tree::{CodingItem, CodingPart, Section, SyntaxItem, SyntaxPart, coding, syntax};
use lisa_words::{Name, NoMemory};
use name_tables::put_value;
use std::alloc::{AllocError, Global};
use std::collections::BTreeMap;

fn again(times: Option<Times>) -> Times
    ensures { result ≡ again times }
{
    match times {
        None => Times::Once,
        Some(_) => Times::More,
    }
}

// Notes a name once more.
fn count(table: &mut BTreeMap<Name, Times>, name: &Name) -> Result<(), AllocError>
    ensures { OnOk result ((n : List ℕ) → value_of table.new n ≡ more_times (same_name n name.now) (value_of table.old n)) }
{
    let times = again(table.get(name).copied());
    put_value(table, name, times)
}

fn count_item(table: &mut BTreeMap<Name, Times>, item: &CodingItem) -> Result<(), AllocError>
    ensures { OnOk result ((n : List ℕ) → value_of table.new n ≡ more_times (is_coded n item.now) (value_of table.old n)) }
{
    match item {
        CodingItem::Bits(_) => Ok(()),
        CodingItem::Field(name, _) => count(table, name),
        CodingItem::Child(name) => count(table, name),
    }
}

fn count_part(table: &mut BTreeMap<Name, Times>, part: &SyntaxPart) -> Result<(), AllocError>
    ensures { OnOk result ((n : List ℕ) → value_of table.new n ≡ more_times (is_shown n part.now) (value_of table.old n)) }
{
    match part {
        SyntaxPart::Literal(_) => Ok(()),
        SyntaxPart::Number(name, _) => count(table, name),
        SyntaxPart::Child(name) => count(table, name),
    }
}

#[tactic(auto, using(crate::proofs::Counted::counted_item))]
fn items_times(alloc: Global, items: &[CodingItem]) -> Result<BTreeMap<Name, Times>, AllocError>
    ensures { IfOk result (λ table. (n : List ℕ) → value_of table n ≡ times_for (sum_by (item_count n) items.now)) }
{
    let mut table = BTreeMap::new(alloc);
    for item in items {
        count_item(&mut table, item)?;
    }
    Ok(table)
}

#[tactic(auto, using(crate::proofs::Counted::counted_part))]
fn parts_times(alloc: Global, items: &[SyntaxItem]) -> Result<BTreeMap<Name, Times>, AllocError>
    ensures { IfOk result (λ table. (n : List ℕ) → value_of table n ≡ times_for (sum_by (part_count n) items.now)) }
{
    let mut table = BTreeMap::new(alloc);
    for item in items {
        count_part(&mut table, &item.part)?;
    }
    Ok(table)
}

fn coded_times(
    alloc: Global,
    part: Option<&CodingPart>,
) -> Result<BTreeMap<Name, Times>, AllocError>
    ensures { IfOk result (λ table. (n : List ℕ) → value_of table n ≡ times_for (coded_count n (option_map (λ part. coding_tree part.now) part.entry))) }
{
    match part {
        Some(CodingPart::Items(items)) => items_times(alloc, items),
        _ => Ok(BTreeMap::new(alloc)),
    }
}

fn shown_times(
    alloc: Global,
    items: Option<&[SyntaxItem]>,
) -> Result<BTreeMap<Name, Times>, AllocError>
    ensures { IfOk result (λ table. (n : List ℕ) → value_of table n ≡ times_for (shown_count n (option_map (λ all. all.now) items.entry))) }
{
    match items {
        None => Ok(BTreeMap::new(alloc)),
        Some(items) => parts_times(alloc, items),
    }
}

fn is_once(times: Option<Times>) -> bool
    ensures { result ≡ is_once times }
{
    match times {
        Some(Times::Once) => true,
        _ => false,
    }
}

/// What the coding and the syntax of an operation say of names, and how often each stands in them.
#[derive(Drop)]
pub(crate) struct WrittenNames<'a> {
    pub names: CodedNames<'a>,
    coded: BTreeMap<Name, Times>,
    shown: BTreeMap<Name, Times>,
    ghost of_coded: { (n : List ℕ) → value_of coded n ≡ times_for (coded_count n (coding_in (map section_tree names.sections.now))) },
    ghost of_shown: { (n : List ℕ) → value_of shown n ≡ times_for (shown_count n (syntax_in (map section_tree names.sections.now))) },
}

impl<'a> WrittenNames<'a> {
    /// Goes over the coding and the syntax.
    pub(crate) fn make(alloc: Global, sections: &'a [Section]) -> Result<WrittenNames<'a>, NoMemory>
        ensures { IfOk result (λ w. w.names.sections.now ≡ sections.now) }
    {
        let names = CodedNames::make(alloc, sections)?;
        let coded = coded_times(alloc, coding(sections))?;
        let shown = shown_times(alloc, syntax(sections))?;
        Ok(WrittenNames {
            names,
            coded,
            shown,
        })
    }

    /// Whether a name stands once in the coding and once in the syntax.
    #[tactic(auto, using(crate::proofs::Counted::once))]
    pub(crate) fn is_written(&self, name: &Name) -> bool
        ensures { result ≡ is_written (map section_tree self.now.names.sections.now) name.now }
    {
        is_once(self.coded.get(name).copied()) && is_once(self.shown.get(name).copied())
    }
}
