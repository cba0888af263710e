//! Ranks of nodes that no edge lowers. A node each of whose edges raises the rank doesn't reach itself.

ghost use Rattle.std.specs.Prelude.{◌≡◌, true, IfOk, nat_lt, nat_le};
ghost use Rattle.std.specs.List.{list_all};
ghost use Rattle.graph_paths.specs.Paths.{AreNodes};
ghost use Rattle.graph_paths.specs.Ranks.{rank, AreRanks};

use crate::components::component_ranks;
use crate::reaching::row;
use crate::reversing::reversed;
use std::alloc::{AllocError, Global};

/// The rank of a node, the lowest one where it has none.
pub(crate) fn rank(ranks: &[usize], node: usize) -> usize
    ensures { result ≡ rank ranks.now node }
{
    if node < ranks.len() { ranks[node] } else { 0 }
}

/// Whether each of the nodes has a higher rank.
pub(crate) fn are_higher(ranks: &[usize], own: usize, nodes: &[usize]) -> bool
    ensures { result ≡ list_all (λ b. nat_lt own (rank ranks.now b)) nodes.now }
{
    nodes.iter().all(|node| own < rank(ranks, *node))
}

// Whether none of the nodes has a lower rank.
fn are_not_lower(ranks: &[usize], own: usize, nodes: &[usize]) -> bool
    ensures { result ≡ list_all (λ b. nat_le own (rank ranks.now b)) nodes.now }
{
    nodes.iter().all(|node| own <= rank(ranks, *node))
}

// Whether no edge lowers the rank.
fn are_ranks(next: &[Vec<usize>], ranks: &[usize]) -> bool
    ensures { result ≡ true → AreRanks next.now ranks.now }
{
    for node in 0..next.len() {
        if !are_not_lower(ranks, rank(ranks, node), row(next, node)) {
            return false;
        }
    }
    true
}

/// Ranks that no edge lowers, one for each component; all the same where those weren't.
pub(crate) fn ranks(alloc: Global, next: &[Vec<usize>]) -> Result<Vec<usize>, AllocError>
    requires { AreNodes next.now }
    ensures { IfOk result (λ ranks. AreRanks next.now ranks.items) }
{
    let back = reversed(alloc, next)?;
    let ranks = component_ranks(alloc, next, &back)?;
    if are_ranks(next, &ranks) {
        Ok(ranks)
    } else {
        Ok(Vec::new(alloc))
    }
}
