//! What a coding and a syntax say of names, in tables.

#![tactic(auto, using(crate::proofs::Notes::one_item, crate::proofs::Notes::one_part, crate::proofs::Notes::or_assoc, crate::proofs::Notes::or_none))]

ghost use Rattle.std.specs.Prelude.{◌≡◌, IfOk, OnOk, List, ℕ, Some, None, option_map, map};
ghost use Rattle.std.specs.Option.{option_or};
ghost use Rattle.name_tables.specs.TableViews.{value_of};
ghost use Rattle.lisa_tree.specs.Descriptions.{coding_tree, section_tree};
ghost use Rattle.lisa_tree.specs.Operations.{coding_in, syntax_in};
ghost use Rattle.coded_names.specs.Codings.{item_width, items_width, field_width, part_kind, parts_kind, number_kind, item_child, items_child, coded_child, in_coding};

use crate::codings::{format_kind, pattern_width};
use lisa_tree::{CodingItem, CodingPart, Section, SyntaxItem, SyntaxPart, coding, syntax};
use lisa_words::{Kind, Name, NoMemory};
use name_tables::note_value;
use std::alloc::{AllocError, Global};
use std::collections::BTreeMap;

fn note_width(table: &mut BTreeMap<Name, u32>, item: &CodingItem) -> Result<(), AllocError>
    ensures { OnOk result ((n : List ℕ) → value_of table.new n ≡ option_or (value_of table.old n) (item_width n item.now)) }
{
    match item {
        CodingItem::Field(name, pattern) => note_value(table, name, pattern_width(pattern)),
        _ => Ok(()),
    }
}

fn items_widths(alloc: Global, items: &[CodingItem]) -> Result<BTreeMap<Name, u32>, AllocError>
    ensures { IfOk result (λ table. (n : List ℕ) → value_of table n ≡ items_width n items.now) }
{
    let mut table = BTreeMap::new(alloc);
    for item in items {
        note_width(&mut table, item)?;
    }
    Ok(table)
}

fn note_child(table: &mut BTreeMap<Name, bool>, item: &CodingItem) -> Result<(), AllocError>
    ensures { OnOk result ((n : List ℕ) → value_of table.new n ≡ option_or (value_of table.old n) (item_child n item.now)) }
{
    match item {
        CodingItem::Child(name) => note_value(table, name, true),
        _ => Ok(()),
    }
}

fn items_children(alloc: Global, items: &[CodingItem]) -> Result<BTreeMap<Name, bool>, AllocError>
    ensures { IfOk result (λ table. (n : List ℕ) → value_of table n ≡ items_child n items.now) }
{
    let mut table = BTreeMap::new(alloc);
    for item in items {
        note_child(&mut table, item)?;
    }
    Ok(table)
}

fn note_kind(table: &mut BTreeMap<Name, Kind>, part: &SyntaxPart) -> Result<(), AllocError>
    ensures { OnOk result ((n : List ℕ) → value_of table.new n ≡ option_or (value_of table.old n) (part_kind n part.now)) }
{
    match part {
        SyntaxPart::Number(name, format) => note_value(table, name, format_kind(*format)),
        _ => Ok(()),
    }
}

fn parts_kinds(alloc: Global, items: &[SyntaxItem]) -> Result<BTreeMap<Name, Kind>, AllocError>
    ensures { IfOk result (λ table. (n : List ℕ) → value_of table n ≡ parts_kind n items.now) }
{
    let mut table = BTreeMap::new(alloc);
    for item in items {
        note_kind(&mut table, &item.part)?;
    }
    Ok(table)
}

fn widths(alloc: Global, part: Option<&CodingPart>) -> Result<BTreeMap<Name, u32>, AllocError>
    ensures { IfOk result (λ table. (n : List ℕ) → value_of table n ≡ field_width n (option_map (λ part. coding_tree part.now) part.entry)) }
{
    match part {
        Some(CodingPart::Items(items)) => items_widths(alloc, items),
        _ => Ok(BTreeMap::new(alloc)),
    }
}

fn children(alloc: Global, part: Option<&CodingPart>) -> Result<BTreeMap<Name, bool>, AllocError>
    ensures { IfOk result (λ table. (n : List ℕ) → value_of table n ≡ coded_child n (option_map (λ part. coding_tree part.now) part.entry)) }
{
    match part {
        None => Ok(BTreeMap::new(alloc)),
        Some(CodingPart::Items(items)) => items_children(alloc, items),
        Some(CodingPart::Root(_, group)) => {
            let mut table = BTreeMap::new(alloc);
            note_value(&mut table, group, true)?;
            Ok(table)
        }
    }
}

fn kinds(alloc: Global, items: Option<&[SyntaxItem]>) -> Result<BTreeMap<Name, Kind>, AllocError>
    ensures { IfOk result (λ table. (n : List ℕ) → value_of table n ≡ number_kind n (option_map (λ all. all.now) items.entry)) }
{
    match items {
        None => Ok(BTreeMap::new(alloc)),
        Some(items) => parts_kinds(alloc, items),
    }
}

/// What the coding and the syntax of an operation say of names, each found at once.
#[derive(Drop)]
pub struct CodedNames<'a> {
    /// The sections of the operation.
    pub sections: &'a [Section],
    widths: BTreeMap<Name, u32>,
    children: BTreeMap<Name, bool>,
    kinds: BTreeMap<Name, Kind>,
    ghost of_widths: { (n : List ℕ) → value_of widths n ≡ field_width n (coding_in (map section_tree sections.now)) },
    ghost of_children: { (n : List ℕ) → value_of children n ≡ coded_child n (coding_in (map section_tree sections.now)) },
    ghost of_kinds: { (n : List ℕ) → value_of kinds n ≡ number_kind n (syntax_in (map section_tree sections.now)) },
}

impl<'a> CodedNames<'a> {
    /// Goes over the coding and the syntax once.
    pub fn make(alloc: Global, sections: &'a [Section]) -> Result<CodedNames<'a>, NoMemory>
        ensures { IfOk result (λ c. c.sections.now ≡ sections.now) }
    {
        let part = coding(sections);
        let widths = widths(alloc, part)?;
        let children = children(alloc, part)?;
        let kinds = kinds(alloc, syntax(sections))?;
        Ok(CodedNames {
            sections,
            widths,
            children,
            kinds,
        })
    }

    /// The width of a label's field, the first one.
    pub fn field_width(&self, name: &Name) -> Option<u32>
        ensures { result ≡ field_width name.now (coding_in (map section_tree self.now.sections.now)) }
    {
        self.widths.get(name).copied()
    }

    /// The kind of a label's number, the first one.
    pub fn number_kind(&self, name: &Name) -> Option<Kind>
        ensures { result ≡ number_kind name.now (syntax_in (map section_tree self.now.sections.now)) }
    {
        self.kinds.get(name).copied()
    }

    /// Whether a name stands in the coding, as a child or as the root's group.
    pub fn in_coding(&self, name: &Name) -> bool
        ensures { result ≡ in_coding name.now (coding_in (map section_tree self.now.sections.now)) }
    {
        self.children.get(name).is_some()
    }
}
