//! Facts about operations, choices and declared names that rest on each other, by one rule for all of them.

ghost use Rattle.std.specs.Prelude.{◌≡◌, ◌≤◌, ◌-◌, ℕ, List, Option, length, option_map};
ghost use Rattle.std.specs.Global.{Vec};
ghost use Rattle.lisa_tree.specs.Descriptions.{DescriptionTree};
ghost use Rattle.lisa_tree.specs.Declarations.{what_at};
ghost use Rattle.lisa_tree.specs.Paths.{choice_node, entry_node, node_count};
ghost use Rattle.least_fixed_points.specs.Settles.{entry};
ghost use Rattle.description_types.specs.Facts.{Fact, IsSteady, together, merged_from};
ghost use Rattle.description_types.specs.Sourced.{source_value, sourced_value, sourced_entry, follows_sources, sources_monotone, sources_end};

use crate::lookups::{known_choice, known_entry, mark_at, operation_count, row_at};
use least_fixed_points::Rule;
use lisa_tree::{Names, What};
use std::alloc::AllocError;

/// How a fact of a node follows from those of others.
pub(crate) trait Facts<T: Copy> {
    ghost fact: { Self → Fact T };

    /// Of an operation.
    fn of_operation(&self, table: &[Option<T>], operation: usize) -> Option<T>
        ensures { result ≡ (fact self.now).of_operation (entry table.now) operation };

    /// Of what a group or an instance chooses among.
    fn of_choice(&self, table: &[Option<T>], choice: usize) -> Option<T>
        ensures { result ≡ (fact self.now).of_choice (entry table.now) choice };

    /// Of a label, by its number among the declared names.
    fn of_label(&self, entry: usize) -> T
        ensures { result ≡ (fact self.now).of_label entry };

    /// Of a group or an instance, by its number among the declared names and the fact of its choice.
    fn of_child(&self, entry: usize, choice: T) -> T
        ensures { result ≡ (fact self.now).of_child entry choice };

    /// Of a reference that may mean two declarations.
    fn either(&self, left: T, right: T) -> T
        ensures { result ≡ (fact self.now).either left right };

    /// Adds the nodes that an operation's fact rests on. Only the order in which nodes are gone over goes by them.
    fn add_bases(&self, operation: usize, into: &mut Vec<usize>) -> Result<(), AllocError>;

    /// The operations on which the fact of a choice rests, for the same use.
    fn bases_of_choice(&self, choice: usize) -> &[usize];

    ghost steady: { (facts : Self) → IsSteady (fact facts) };
}

/// The rule by which a fact follows for each node.
#[derive(Drop)]
pub(crate) struct Following<'a, N, F> {
    pub names: &'a N,
    pub facts: &'a F,
    /// To which declared names references lead.
    pub sources: &'a [Vec<usize>],
    /// Which references have no fact, since an operation above their own lacks their name.
    pub lacking: &'a [bool],
}

// What two declarations make together, where both are known.
fn together<T: Copy, F: Facts<T>>(facts: &F, left: Option<T>, right: Option<T>) -> Option<T>
    ensures { result ≡ together (F.fact facts.now).either left right }
{
    match (left, right) {
        (Some(left), Some(right)) => Some(facts.either(left, right)),
        _ => None,
    }
}

// What declared names make together with what is known so far.
fn merged_from<T: Copy, N: Names, F: Facts<T>>(
    names: &N,
    facts: &F,
    table: &[Option<T>],
    first: Option<T>,
    row: &[usize],
) -> Option<T>
    ensures { result ≡ merged_from (F.fact facts.now).either (λ k. entry table.now (entry_node (N.tree names.now) k)) first row.now }
{
    let mut so_far = first;
    for &number in row {
        so_far = together(facts, so_far, known_entry(names, table, number));
    }
    so_far
}

// What declared names make together.
fn source_value<T: Copy, N: Names, F: Facts<T>>(
    names: &N,
    facts: &F,
    table: &[Option<T>],
    row: &[usize],
) -> Option<T>
    ensures { result ≡ source_value (N.tree names.now) (F.fact facts.now).either (entry table.now) row.now }
{
    match row {
        [] => None,
        [number, rest @ ..] => merged_from(
            names,
            facts,
            table,
            known_entry(names, table, *number),
            rest,
        ),
    }
}

// What follows for a group or an instance.
fn child_value<T: Copy, N: Names, F: Facts<T>>(
    names: &N,
    facts: &F,
    table: &[Option<T>],
    number: usize,
    choice: usize,
) -> Option<T>
    ensures { result ≡ option_map ((F.fact facts.now).of_child number) (entry table.now (choice_node (N.tree names.now) choice)) }
{
    match known_choice(names, table, choice) {
        None => None,
        Some(value) => Some(facts.of_child(number, value)),
    }
}

// What follows for a reference.
fn sourced_value<T: Copy, N: Names, F: Facts<T>>(
    rule: &Following<'_, N, F>,
    table: &[Option<T>],
    number: usize,
) -> Option<T>
    ensures { result ≡ sourced_value (N.tree rule.now.names.now) rule.now.sources.now rule.now.lacking.now (F.fact rule.now.facts.now).either (entry table.now) number }
{
    if mark_at(rule.lacking, number) {
        return None;
    }
    source_value(rule.names, rule.facts, table, row_at(rule.sources, number))
}

// What follows for a declared name.
fn sourced_entry<T: Copy, N: Names, F: Facts<T>>(
    rule: &Following<'_, N, F>,
    table: &[Option<T>],
    number: usize,
) -> Option<T>
    ensures { result ≡ sourced_entry (N.tree rule.now.names.now) rule.now.sources.now rule.now.lacking.now (F.fact rule.now.facts.now) (entry table.now) number (what_at (N.tree rule.now.names.now) number) }
{
    match rule.names.what_at(number) {
        None => None,
        Some(What::Group(choice)) | Some(What::Instance(choice)) => {
            child_value(rule.names, rule.facts, table, number, choice)
        }
        Some(What::Label) => Some(rule.facts.of_label(number)),
        Some(What::Reference) => sourced_value(rule, table, number),
    }
}

impl<'a, T: Copy, N: Names, F: Facts<T>> Rule<T> for Following<'a, N, F> {
    ghost step = { λ c. follows_sources (N.tree c.names.now) c.sources.now c.lacking.now (F.fact c.facts.now) };

    ghost count = { λ c. node_count (N.tree c.names.now) };

    fn apply(&self, table: &[Option<T>], node: usize) -> Option<T> {
        let operations = operation_count(self.names);
        if node < operations {
            return self.facts.of_operation(table, node);
        }
        let choices = self.names.choice_count();
        if node - operations < choices {
            return self.facts.of_choice(table, node - operations);
        }
        sourced_entry(self, table, node - operations - choices)
    }

    ghost monotone = { λ c. sources_monotone (N.tree c.names.now) c.sources.now c.lacking.now (F.fact c.facts.now) (F.steady c.facts.now) };

    ghost ends = { λ c. sources_end (N.tree c.names.now) c.sources.now c.lacking.now (F.fact c.facts.now) };
}
