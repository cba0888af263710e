//! The names of a description, looked up in tables.

ghost use Rattle.std.specs.Prelude.{◌≡◌, ◌<◌, ℕ, List, [], IfOk, length, map, option_copied, slice_get, slice_index};
ghost use Rattle.graph_paths.specs.Paths.{targets};
ghost use Rattle.lisa_tree.specs.Descriptions.{DescriptionTree, description_tree};
ghost use Rattle.lisa_tree.specs.Resources.{resource_at, stage_at, field_shape};
ghost use Rattle.lisa_tree.specs.Operations.{number_of, own_stage};
ghost use Rattle.lisa_tree.specs.Declarations.{Entry, choices as all_choices, entries as all_entries, entries_before, declared_at, what_at, owner_at, entry_name_at, alternatives_at, plain_at, above as all_above};
ghost use Rattle.lisa_tree.specs.Meanings.{meaning};
ghost use Rattle.description_tables.specs.Laws.{Chosen, chosen, find_in};

use crate::choices::Choice;
use crate::finding::{find, index_names};
use crate::globals::Globals;
use crate::listing::{Declared, Listing, list};
use crate::listings::list_above;
use lisa_tree::{Description, Meaning, Names, Shape, What};
use lisa_words::Name;
use std::alloc::{AllocError, Global};
use std::collections::BTreeMap;

/// The names of a description in tables.
#[derive(Drop)]
pub struct Tables<'a> {
    globals: Globals<'a>,
    entries: Vec<Declared<'a>>,
    choices: Vec<Choice>,
    before: Vec<usize>,
    declared: Vec<BTreeMap<Name, usize>>,
    above: Vec<Vec<usize>>,
    ghost of_entries: { entries.items ≡ all_entries (description_tree globals.description.now) },
    ghost of_choices: { choices.items ≡ map (chosen (description_tree globals.description.now)) (all_choices (description_tree globals.description.now)) },
    ghost before_count: { length before.items ≡ length globals.description.now.operations.items },
    ghost of_before: { (o : ℕ) → o < length before.items → slice_index before.items o ≡ entries_before (description_tree globals.description.now) o },
    ghost of_declared: { (o : ℕ) → (n : List ℕ) → find_in declared.items o n ≡ declared_at (description_tree globals.description.now) o n },
    ghost of_above: { (o : ℕ) → targets above.items o ≡ all_above (description_tree globals.description.now) o },
}

impl<'a> Tables<'a> {
    /// Goes over the description once. It takes memory and time in proportion to the description.
    pub fn make(alloc: Global, description: &'a Description) -> Result<Tables<'a>, AllocError>
        ensures { IfOk result (λ tables. description_tree tables.globals.description.now ≡ description_tree description.now) }
    {
        let count = description.operations.len();
        let globals = Globals::make(alloc, description)?;
        let Listing {
            entries,
            choices,
            before,
        } = list(alloc, &globals, &description.operations)?;
        let declared = index_names(alloc, count, &entries)?;
        let above = list_above(alloc, &globals, count, &choices)?;
        Ok(Tables {
            globals,
            entries,
            choices,
            before,
            declared,
            above,
        })
    }
}

// A declared name by its number.
#[tactic(auto, using(std::proofs::lemmas::Option::slice_get_read, std::proofs::lemmas::Option::slice_get_past))]
fn entry_at<'a, 'b>(entries: &'b [Declared<'a>], entry: usize) -> Option<&'b Declared<'a>>
    ensures { option_copied result ≡ slice_get entries.now entry }
{
    if entry < entries.len() {
        Some(&entries[entry])
    } else {
        None
    }
}

// A choice by its number.
#[tactic(auto, using(std::proofs::lemmas::Option::slice_get_read, std::proofs::lemmas::Option::slice_get_past))]
fn choice_at(choices: &[Choice], choice: usize) -> Option<&Choice>
    ensures { option_copied result ≡ slice_get choices.now choice }
{
    if choice < choices.len() {
        Some(&choices[choice])
    } else {
        None
    }
}

// A row by its number.
#[tactic(auto, using(crate::proofs::Rows::row_past))]
fn row_at(rows: &[Vec<usize>], row: usize) -> &[usize]
    ensures { result.now ≡ targets rows.now row }
{
    if row < rows.len() {
        graph_paths::row(rows, row)
    } else {
        &[]
    }
}

impl<'a> Names for Tables<'a> {
    ghost tree = { λ t. description_tree t.globals.description.now };

    fn description(&self) -> &Description {
        self.globals.description
    }

    fn resource_at(&self, name: &Name) -> Option<usize> {
        self.globals.resource_at(name)
    }

    fn stage_at(&self, name: &Name) -> Option<usize> {
        self.globals.stage_at(name)
    }

    fn field_shape(&self, name: &Name) -> Option<Shape> {
        self.globals.field_shape(name)
    }

    fn number_of(&self, name: &Name) -> Option<usize> {
        self.globals.number_of(name)
    }

    fn own_stage(&self, operation: usize) -> Option<usize> {
        self.globals.own_stage(operation)
    }

    fn declared_at(&self, operation: usize, name: &Name) -> Option<usize> {
        find(&self.declared, operation, name)
    }

    fn meaning(&self, operation: usize, name: &Name) -> Meaning {
        match self.declared_at(operation, name) {
            Some(entry) => Meaning::Declared(entry),
            None => match self.resource_at(name) {
                Some(resource) => Meaning::Resource(resource),
                None => Meaning::Nothing,
            },
        }
    }

    fn entry_count(&self) -> usize {
        self.entries.len()
    }

    fn entries_before(&self, operation: usize) -> usize {
        if operation < self.before.len() {
            self.before[operation]
        } else {
            self.entries.len()
        }
    }

    fn what_at(&self, entry: usize) -> Option<What> {
        match entry_at(&self.entries, entry) {
            Some(found) => Some(found.what()),
            None => None,
        }
    }

    fn owner_at(&self, entry: usize) -> usize {
        match entry_at(&self.entries, entry) {
            Some(found) => found.operation(),
            None => 0,
        }
    }

    fn name_at(&self, entry: usize) -> Option<&Name> {
        match entry_at(&self.entries, entry) {
            Some(found) => Some(found.name()),
            None => None,
        }
    }

    fn choice_count(&self) -> usize {
        self.choices.len()
    }

    fn alternatives_at(&self, choice: usize) -> &[usize] {
        match choice_at(&self.choices, choice) {
            Some(found) => found.alternatives(),
            None => &[],
        }
    }

    fn plain_at(&self, choice: usize) -> &[usize] {
        match choice_at(&self.choices, choice) {
            Some(found) => found.plain(),
            None => &[],
        }
    }

    fn above(&self, operation: usize) -> &[usize] {
        row_at(&self.above, operation)
    }
}
