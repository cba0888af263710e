//! The counts of a description, found out once.

ghost use Rattle.std.specs.Prelude.{◌≡◌, ◌<◌, ℕ, IfOk, length};
ghost use Rattle.least_fixed_points.specs.Settles.{entry};
ghost use Rattle.lisa_tree.specs.Operations.{sections_at, activation_in};
ghost use Rattle.text_counts.specs.Activations.{activation_nodes};
ghost use Rattle.text_counts.specs.Tables.{TextLists, told_by, AreTextCounts, nodes_of};

use crate::activations::activation_nodes;
use crate::alike::alike_references;
use crate::behaviors::behavior_counts;
use crate::expressions::expression_counts;
use crate::references::Meanings;
use crate::sums::plus;
use description_graph::outline;
use description_types::{known_operation, operation_count};
use graph_paths::visiting_order;
use lisa_tree::Names;
use lisa_words::NoMemory;
use std::alloc::{AllocError, Global};
use std::marker::Model;

/// How many statements and nodes each operation has in the unfolded description, and what references may choose. What would rest on itself
/// has no count; in a description without circles each operation has one. From 2^64 - 1 on counts stay there.
///
/// Contracts see it as its tables.
#[derive(Drop)]
pub struct TextCounts {
    meanings: Meanings,
    statements: Vec<Option<u64>>,
    behaviors: Vec<Option<u64>>,
    expressions: Vec<Option<u64>>,
    activations: Vec<Option<u64>>,
}

impl Model for TextCounts {
    ghost Value = { TextLists };

    ghost view = { λ t. record { meanings = t.meanings; statements = t.statements.items; behaviors = t.behaviors.items; expressions = t.expressions.items; activations = t.activations.items } };
}

// What the activation of each operation counts, by what is known of the expressions.
fn activation_counts<N: Names>(
    alloc: Global,
    names: &N,
    expressions: &[Option<u64>],
) -> Result<Vec<Option<u64>>, AllocError>
    ensures { IfOk result (λ table. (o : ℕ) → o < length (N.tree names.now).operations → entry table.items o ≡ activation_nodes (entry expressions.now) (N.tree names.now) o (activation_in (sections_at (N.tree names.now) o))) }
{
    let mut table = Vec::new(alloc);
    for operation in 0..operation_count(names) {
        table.push(activation_nodes(names, expressions, operation))?;
    }
    Ok(table)
}

impl TextCounts {
    /// Counts them. The time is in proportion to the description, beside the time to gather what references may choose; what a name
    /// chooses among is summed up once, however often the name is used, and once for a reference and all that hand it on alone.
    pub fn make<N: Names>(alloc: Global, names: &N) -> Result<TextCounts, NoMemory>
        ensures { IfOk result (λ counts. AreTextCounts (N.tree names.now) (told_by counts)) }
    {
        let next = outline(alloc, names)?;
        let order = visiting_order(alloc, &next)?;
        let meanings = Meanings::make(alloc, names, &next, &order)?;
        let alike = alike_references(alloc, names, &next, &meanings)?;
        let nodes = next.len();
        let expressions = expression_counts(alloc, names, &meanings, &alike, nodes, &order)?;
        let statements = behavior_counts(alloc, names, &meanings, &alike, None, nodes, &order)?;
        let behaviors = behavior_counts(
            alloc,
            names,
            &meanings,
            &alike,
            Some(&expressions),
            nodes,
            &order,
        )?;
        let activations = activation_counts(alloc, names, &expressions)?;
        Ok(TextCounts {
            meanings,
            statements,
            behaviors,
            expressions,
            activations,
        })
    }

    /// How many statements an operation's behaviour has.
    pub fn statements(&self, operation: usize) -> Option<u64>
        ensures { result ≡ (told_by self.now).statements operation }
    {
        known_operation(&self.statements, operation)
    }

    /// How many statements, alternatives and nodes an operation's behaviour has, and how many items and nodes its activation, together.
    pub fn nodes(&self, operation: usize) -> Option<u64>
        ensures { result ≡ nodes_of (told_by self.now) operation }
    {
        plus(
            known_operation(&self.behaviors, operation),
            known_operation(&self.activations, operation),
        )
    }

    /// How many nodes an operation's expression has.
    pub fn expression_nodes(&self, operation: usize) -> Option<u64>
        ensures { result ≡ (told_by self.now).expressions operation }
    {
        known_operation(&self.expressions, operation)
    }

    /// What references may choose.
    pub fn meanings(&self) -> &Meanings
        ensures { result.now ≡ self.now.meanings }
    {
        &self.meanings
    }
}
