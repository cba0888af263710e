//! Nodes in an order in which they are best visited.

ghost use Rattle.std.specs.Prelude.{IfOk, OnOk, length};
ghost use Rattle.graph_paths.specs.Paths.{AreNodes};
ghost use Rattle.graph_paths.specs.Below.{AreBelow};

use crate::peeling::{edge_counts, lower_all, mark_ends};
use crate::reaching::row;
use crate::reversing::reversed;
use std::alloc::{AllocError, Global};

// Adds the nodes that were not seen.
fn add_unseen(seen: &[bool], all: &mut Vec<usize>) -> Result<(), AllocError>
    requires { AreBelow (length seen.now) all.old.items }
    ensures { OnOk result (AreBelow (length seen.now) all.new.items) }
{
    for node in 0..seen.len() {
        if !seen[node] {
            all.push(node)?;
        }
    }
    Ok(())
}

/// Nodes in an order in which a pass over them has least to do again: each behind all that it leads to, and at the end those from
/// which a circle is reached. No answer may rest on that, so what is proved is only that they are nodes; the time is in proportion to
/// the nodes and edges.
pub fn visiting_order(alloc: Global, next: &[Vec<usize>]) -> Result<Vec<usize>, AllocError>
    requires { AreNodes next.now }
    ensures { IfOk result (λ all. AreBelow (length next.now) all.items) }
{
    let back = reversed(alloc, next)?;
    let mut seen = vec![in alloc; false; next.len()]?;
    let mut counts = edge_counts(alloc, next)?;
    let mut work = Vec::new(alloc);
    let mut all = Vec::new(alloc);
    mark_ends(&counts, &mut seen, &mut work)?;
    'going: while let Some(node) = work.pop() {
        all.push(node)?;
        lower_all(row(&back, node), &mut counts, &mut seen, &mut work)?;
    }
    add_unseen(&seen, &mut all)?;
    Ok(all)
}
