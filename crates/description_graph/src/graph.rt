//! The graph of nodes.

ghost use Rattle.std.specs.Prelude.{◌≡◌, ◌+◌, ℕ, IfOk, OnOk, length, false};
ghost use Rattle.graph_paths.specs.Paths.{targets, is_in, AreNodes};
ghost use Rattle.lisa_tree.specs.Paths.{node_count};
ghost use Rattle.description_graph.specs.Graph.{IsGraph, IsOutline, plain_edges};

use crate::meanings::meanings;
use crate::owners::{choice_owners, operation_count};
use crate::references::{add_meanings, add_sources};
use crate::rows::{add_alternatives, add_choices, add_chosen, add_references};
use lisa_tree::Names;
use meant_declarations::reference_sources;
use std::alloc::{AllocError, Global};

// Adds so many nodes, without edges.
#[tactic(auto, using(crate::proofs::Lists::targets_none))]
fn add_nodes(alloc: Global, count: usize, next: &mut Vec<Vec<usize>>) -> Result<(), AllocError>
    ensures next { OnOk result (length next.new.items ≡ length next.old.items + count) }
    ensures none { OnOk result ((a b : ℕ) → is_in b (targets next.new.items a) ≡ is_in b (targets next.old.items a)) }
{
    for _node in 0..count {
        next.push(Vec::new(alloc))?;
    }
    Ok(())
}

/// The edges between nodes, but those from references to what they may mean. No name is looked up.
pub fn plain_edges<N: Names>(alloc: Global, names: &N) -> Result<Vec<Vec<usize>>, AllocError>
    ensures count { IfOk result (λ next. length next.items ≡ node_count (N.tree names.now)) }
    ensures edges { IfOk result (λ next. (a b : ℕ) → is_in b (targets next.items a) ≡ plain_edges (N.tree names.now) a b) }
    ensures nodes { IfOk result (λ next. AreNodes next.items) }
{
    let mut next = Vec::new(alloc);
    let choices = operation_count(names);
    add_nodes(alloc, choices, &mut next)?;
    add_nodes(alloc, names.choice_count(), &mut next)?;
    let entries = next.len();
    add_nodes(alloc, names.entry_count(), &mut next)?;
    let owners = choice_owners(alloc, names)?;
    add_choices(names, &owners, choices, &mut next)?;
    add_references(names, entries, &mut next)?;
    add_alternatives(names, choices, &mut next)?;
    add_chosen(names, choices, entries, &mut next)?;
    Ok(next)
}

/// The edges between nodes, which are numbered: first the operations, then the choices, then the declared names.
///
/// The time and the memory are in proportion to the description and the edges, beside the time to look up, for each operation and each
/// one above it, the names of the one that declares fewer.
pub fn edges<N: Names>(alloc: Global, names: &N) -> Result<Vec<Vec<usize>>, AllocError>
    ensures { IfOk result (λ next. IsGraph (N.tree names.now) next.items) }
{
    let mut next = plain_edges(alloc, names)?;
    let first = next.len() - names.entry_count();
    let rows = meanings(alloc, names)?;
    add_meanings(names, &rows, first, &mut next)?;
    Ok(next)
}

/// Edges between the same nodes by which as much is reached, but fewer from references: what one of an operation above hands on isn't led
/// to beside it.
///
/// The time and the memory are in proportion to the description and these edges.
pub fn outline<N: Names>(alloc: Global, names: &N) -> Result<Vec<Vec<usize>>, AllocError>
    ensures { IfOk result (λ next. IsOutline (N.tree names.now) next.items) }
{
    let mut next = plain_edges(alloc, names)?;
    let first = next.len() - names.entry_count();
    let rows = reference_sources(alloc, names)?;
    add_sources(names, &rows, first, &mut next)?;
    Ok(next)
}
