//! References that may choose what an earlier one may choose.

ghost use Rattle.std.specs.Prelude.{IfOk};
ghost use Rattle.graph_paths.specs.Paths.{targets};
ghost use Rattle.description_graph.specs.Graph.{IsOutline};
ghost use Rattle.text_counts.specs.Alike.{IsAlike, AreAlike};

use crate::gathering::{Graph, is_same, only_reference};
use crate::references::Meanings;
use graph_paths::row;
use lisa_tree::Names;
use std::alloc::{AllocError, Global};

// An earlier reference that may choose the same as a declared name that leads to these nodes, or that name itself.
#[tactic(auto, using(crate::proofs::Along::earlier, crate::proofs::Along::itself))]
fn alike_to<N: Names>(
    graph: &Graph<'_, N>,
    meanings: &Meanings,
    nodes: &[usize],
    number: usize,
) -> usize
    ensures { IsAlike (N.tree graph.now.names.now) (targets meanings.now) number result }
{
    if let Some(other) = only_reference(graph, nodes) {
        if other < number && is_same(meanings.of_reference(other), meanings.of_reference(number)) {
            return other;
        }
    }
    number
}

/// For each declared name itself, or, where it hands on one earlier reference and nothing else, that one.
pub(crate) fn alike_references<N: Names>(
    alloc: Global,
    names: &N,
    next: &[Vec<usize>],
    meanings: &Meanings,
) -> Result<Vec<usize>, AllocError>
    requires { IsOutline (N.tree names.now) next.now }
    ensures { IfOk result (λ alike. AreAlike (N.tree names.now) (targets meanings.now) alike.items) }
{
    let count = names.entry_count();
    let base = next.len() - count;
    let graph = Graph { names, next, base };
    let mut alike = Vec::new(alloc);
    for number in 0..count {
        alike.push(alike_to(&graph, meanings, row(next, base + number), number))?;
    }
    Ok(alike)
}
