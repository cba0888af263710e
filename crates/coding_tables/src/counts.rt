//! How many forms there are, by sums and products over operations: nothing is listed.

ghost use Rattle.std.specs.Prelude.{◌≡◌, ℕ, List, Option, Some, None, IfOk, unwrap_or};
ghost use Rattle.lisa_tree.specs.Operations.{coding_in, sections_at};
ghost use Rattle.lisa_tree.specs.Paths.{choice_node};
ghost use Rattle.description_graph.specs.Circles.{IsFirstCircularOperation};
ghost use Rattle.least_fixed_points.specs.Settles.{entry};
ghost use Rattle.coding_checks.specs.Widths.{added, capped};
ghost use Rattle.coding_tables.specs.Instructions.{AreFormCounts, form_count};
ghost use Rattle.coding_tables.specs.Products.{times, summed, item_forms, items_forms, coding_forms, form_step, step_count, forms_monotone, forms_end};

use crate::roots::{choice_named, instruction_choice};
use description_graph::plain_edges;
use description_types::{known_choice, known_operation, operation_count, sections};
use graph_paths::visiting_order;
use least_fixed_points::{Rule, settle_along};
use lisa_tree::{CodingItem, CodingPart, Names, coding};
use lisa_words::NoMemory;
use std::alloc::Global;
use std::marker::Model;

fn added(left: Option<u64>, right: Option<u64>) -> Option<u64>
    ensures { result ≡ added left right }
{
    match (left, right) {
        (Some(left), Some(right)) => Some(left.saturating_add(right)),
        _ => None,
    }
}

fn times(left: Option<u64>, right: Option<u64>) -> Option<u64>
    ensures { result ≡ times left right }
{
    match (left, right) {
        (Some(left), Some(right)) => Some(left.saturating_mul(right)),
        _ => None,
    }
}

// The forms of these operations together.
fn sum_of(table: &[Option<u64>], operations: &[usize]) -> Option<u64>
    ensures { result ≡ summed (entry table.now) (Some 0) operations.now }
{
    let mut so_far = Some(0);
    for &operation in operations {
        so_far = added(so_far, known_operation(table, operation));
    }
    so_far
}

fn item_forms<N: Names>(
    names: &N,
    table: &[Option<u64>],
    operation: usize,
    item: &CodingItem,
) -> Option<u64>
    ensures { result ≡ item_forms (entry table.now) (N.tree names.now) operation item.now }
{
    match item {
        CodingItem::Child(name) => match choice_named(names, operation, name) {
            None => Some(0),
            Some(choice) => known_choice(names, table, choice),
        },
        _ => Some(1),
    }
}

fn items_forms<N: Names>(
    names: &N,
    table: &[Option<u64>],
    operation: usize,
    items: &[CodingItem],
) -> Option<u64>
    ensures { result ≡ items_forms (entry table.now) (N.tree names.now) operation (Some 1) items.now }
{
    let mut so_far = Some(1);
    for item in items {
        so_far = times(so_far, item_forms(names, table, operation, item));
    }
    so_far
}

fn coding_forms<N: Names>(names: &N, table: &[Option<u64>], operation: usize) -> Option<u64>
    ensures { result ≡ coding_forms (entry table.now) (N.tree names.now) operation (coding_in (sections_at (N.tree names.now) operation)) }
{
    match coding(sections(names, operation)) {
        Some(CodingPart::Items(items)) => items_forms(names, table, operation, items),
        _ => Some(1),
    }
}

// The rule by which counts follow: an operation has the product of what its children have, a choice the sum of what its alternatives have.
#[derive(Drop)]
struct Following<'a, N> {
    names: &'a N,
}

impl<'a, N: Names> Rule<u64> for Following<'a, N> {
    ghost step = { λ c. form_step (N.tree c.names.now) };

    ghost count = { λ c. step_count (N.tree c.names.now) };

    fn apply(&self, table: &[Option<u64>], node: usize) -> Option<u64> {
        let operations = operation_count(self.names);
        if node < operations {
            return coding_forms(self.names, table, node);
        }
        sum_of(table, self.names.alternatives_at(node - operations))
    }

    ghost monotone = { λ c. forms_monotone (N.tree c.names.now) };

    ghost ends = { λ c. forms_end (N.tree c.names.now) };
}

// How many operations and choices there are. As many as no table holds are answered as want of memory.
fn step_count<N: Names>(names: &N) -> Result<usize, NoMemory>
    ensures { IfOk result (λ count. count ≡ step_count (N.tree names.now)) }
{
    match operation_count(names).checked_add(names.choice_count()) {
        None => Err(NoMemory),
        Some(count) => Ok(count),
    }
}

/// How many forms the coding of each operation has, and each choice among operations, aliases too; a count past 2^64 - 1 is told as that.
///
/// Contracts see it as its table.
#[derive(Drop)]
pub struct FormCounts {
    table: Vec<Option<u64>>,
}

impl Model for FormCounts {
    ghost Value = { List (Option ℕ) };

    ghost view = { λ c. c.table.items };
}

impl FormCounts {
    /// Counts them. The codings and the lists of alternatives are gone over twice, and nothing is listed, so any number is counted at once.
    pub fn make<N: Names>(alloc: Global, names: &N) -> Result<FormCounts, NoMemory>
        requires acyclic { IsFirstCircularOperation (N.tree names.now) None }
        ensures { IfOk result (λ counts. AreFormCounts (N.tree names.now) (entry counts)) }
    {
        let count = step_count(names)?;
        let next = plain_edges(alloc, names)?;
        let order = visiting_order(alloc, &next)?;
        let table = settle_along(alloc, &Following { names }, count, &order)?;
        Ok(FormCounts { table })
    }

    /// How many forms an operation has.
    pub fn of_operation(&self, operation: usize) -> u64
        ensures { result ≡ unwrap_or (entry self.now operation) 0 }
    {
        known_operation(&self.table, operation).unwrap_or(0)
    }

    /// How many a choice among operations has.
    pub fn of_choice<N: Names>(&self, names: &N, choice: usize) -> u64
        ensures { result ≡ unwrap_or (entry self.now (choice_node (N.tree names.now) choice)) 0 }
    {
        known_choice(names, &self.table, choice).unwrap_or(0)
    }
}

/// How many forms instructions have.
pub fn count_forms<N: Names>(alloc: Global, names: &N) -> Result<u64, NoMemory>
    requires acyclic { IsFirstCircularOperation (N.tree names.now) None }
    ensures { IfOk result (λ count. count ≡ capped (form_count (N.tree names.now))) }
{
    let Some(group) = instruction_choice(names) else {
        return Ok(0);
    };
    let counts = FormCounts::make(alloc, names)?;
    Ok(counts.of_choice(names, group))
}
