//! Nodes that reach themselves.

ghost use Rattle.std.specs.Prelude.{◌≡◌, ◌<◌, ◌↔◌, IfOk, length, true};
ghost use Rattle.graph_paths.specs.Paths.{AreNodes, IsFirstCircular, Reaches};
ghost use Rattle.graph_paths.specs.Ranks.{AreRanks};

use crate::ranking::{are_higher, rank, ranks};
use crate::reaching::{reached_from, row, was_seen};
use std::alloc::{AllocError, Global};

// Whether a node reaches itself, by a search from it.
fn is_circular(alloc: Global, next: &[Vec<usize>], node: usize) -> Result<bool, AllocError>
    requires node { node < length next.now }
    requires nodes { AreNodes next.now }
    ensures { IfOk result (λ found. (found ≡ true) ↔ Reaches next.now node node) }
{
    let seen = reached_from(alloc, next, node)?;
    Ok(was_seen(&seen, node))
}

// Whether a node reaches itself: it doesn't where each of its edges raises the rank, and else a search from it tells.
fn is_circular_among(
    alloc: Global,
    next: &[Vec<usize>],
    ranks: &[usize],
    node: usize,
) -> Result<bool, AllocError>
    requires node { node < length next.now }
    requires nodes { AreNodes next.now }
    requires ranks { AreRanks next.now ranks.now }
    ensures { IfOk result (λ found. (found ≡ true) ↔ Reaches next.now node node) }
{
    if are_higher(ranks, rank(ranks, node), row(next, node)) {
        return Ok(false);
    }
    is_circular(alloc, next, node)
}

// The first node that reaches itself, by ranks that no edge lowers.
fn first_among(
    alloc: Global,
    next: &[Vec<usize>],
    ranks: &[usize],
) -> Result<Option<usize>, AllocError>
    requires nodes { AreNodes next.now }
    requires ranks { AreRanks next.now ranks.now }
    ensures { IfOk result (λ found. IsFirstCircular next.now found) }
{
    for node in 0..next.len() {
        let found = is_circular_among(alloc, next, ranks, node)?;
        if found {
            return Ok(Some(node));
        }
    }
    Ok(None)
}

/// The first node that reaches itself, if any does. The time is in proportion to the nodes and edges: a search is made only from a node
/// that leads to one of its own rank, and such a node reaches itself.
pub fn first_circular(alloc: Global, next: &[Vec<usize>]) -> Result<Option<usize>, AllocError>
    requires { AreNodes next.now }
    ensures { IfOk result (λ found. IsFirstCircular next.now found) }
{
    let ranks = ranks(alloc, next)?;
    first_among(alloc, next, &ranks)
}
