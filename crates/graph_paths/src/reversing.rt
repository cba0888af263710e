//! The edges of a graph, the other way round.

ghost use Rattle.std.specs.Prelude.{◌≡◌, ◌<◌, ℕ, IfOk, OnOk, length, ◌||◌, ◌&&◌, nat_eq, false, true};
ghost use Rattle.graph_paths.specs.Paths.{AreNodes, targets, is_in};

use crate::reaching::row;
use std::alloc::{AllocError, Global};

/// Adds one edge.
#[tactic(auto, using(crate::proofs::Edges::targets_pushed))]
pub fn add_edge(edges: &mut Vec<Vec<usize>>, from: usize, to: usize) -> Result<(), AllocError>
    requires { from < length edges.old.items }
    ensures length { length edges.new.items ≡ length edges.old.items }
    ensures added { OnOk result ((x y : ℕ) → is_in y (targets edges.new.items x) ≡ (is_in y (targets edges.old.items x) || (nat_eq x from && nat_eq y to))) }
{
    edges[from].push(to)?;
    Ok(())
}

// Adds the edges from a node, the other way round.
fn add_row(edges: &mut Vec<Vec<usize>>, from: usize, nodes: &[usize]) -> Result<(), AllocError>
    requires { (x : ℕ) → is_in x nodes.now ≡ true → x < length edges.old.items }
    ensures length { length edges.new.items ≡ length edges.old.items }
    ensures added { OnOk result ((x y : ℕ) → is_in y (targets edges.new.items x) ≡ (is_in y (targets edges.old.items x) || (is_in x nodes.now && nat_eq y from))) }
{
    for node in nodes {
        add_edge(edges, *node, from)?;
    }
    Ok(())
}

/// A graph of so many nodes, without edges.
#[tactic(auto, using(crate::proofs::Edges::targets_none))]
pub fn no_edges(alloc: Global, count: usize) -> Result<Vec<Vec<usize>>, AllocError>
    ensures length { IfOk result (λ edges. length edges.items ≡ count) }
    ensures none { IfOk result (λ edges. (x y : ℕ) → is_in y (targets edges.items x) ≡ false) }
{
    let mut edges = Vec::new(alloc);
    for _node in 0..count {
        edges.push(Vec::new(alloc))?;
    }
    Ok(edges)
}

/// The edges of a graph, the other way round.
pub fn reversed(alloc: Global, next: &[Vec<usize>]) -> Result<Vec<Vec<usize>>, AllocError>
    requires { AreNodes next.now }
    ensures length { IfOk result (λ back. length back.items ≡ length next.now) }
    ensures exact { IfOk result (λ back. (x y : ℕ) → is_in y (targets back.items x) ≡ is_in x (targets next.now y)) }
{
    let mut back = no_edges(alloc, next.len())?;
    for node in 0..next.len() {
        add_row(&mut back, node, row(next, node))?;
    }
    Ok(back)
}
