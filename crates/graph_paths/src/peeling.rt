//! Nodes from which no edge goes out, as edges are taken out of a graph.

ghost use Rattle.std.specs.Prelude.{◌≡◌, ◌<◌, ◌+◌, IfOk, OnOk, length};
ghost use Rattle.graph_paths.specs.Paths.{unseen};
ghost use Rattle.graph_paths.specs.Below.{AreBelow};

use crate::reaching::mark;
use std::alloc::{AllocError, Global};

// How many edges go out from each node.
pub(crate) fn edge_counts(alloc: Global, next: &[Vec<usize>]) -> Result<Vec<usize>, AllocError>
    ensures { IfOk result (λ counts. length counts.items ≡ length next.now) }
{
    let mut counts = Vec::new(alloc);
    for nodes in next {
        counts.push(nodes.len())?;
    }
    Ok(counts)
}

// Notes the nodes from which no edge goes out.
pub(crate) fn mark_ends(
    counts: &[usize],
    seen: &mut Vec<bool>,
    work: &mut Vec<usize>,
) -> Result<(), AllocError>
    requires counts { length counts.now ≡ length seen.old.items }
    requires work { AreBelow (length seen.old.items) work.old.items }
    ensures length { length seen.new.items ≡ length seen.old.items }
    ensures work { OnOk result (AreBelow (length seen.new.items) work.new.items) }
{
    for node in 0..counts.len() {
        if counts[node] == 0 {
            mark(node, seen, work)?;
        }
    }
    Ok(())
}

// One edge fewer goes out from a node, which is noted where none is left.
fn lower(
    node: usize,
    counts: &mut Vec<usize>,
    seen: &mut Vec<bool>,
    work: &mut Vec<usize>,
) -> Result<(), AllocError>
    requires node { node < length seen.old.items }
    requires counts { length counts.old.items ≡ length seen.old.items }
    requires work { AreBelow (length seen.old.items) work.old.items }
    ensures counts { length counts.new.items ≡ length counts.old.items }
    ensures length { length seen.new.items ≡ length seen.old.items }
    ensures work { OnOk result (AreBelow (length seen.new.items) work.new.items) }
    ensures count { OnOk result (unseen seen.new.items + length work.new.items ≡ unseen seen.old.items + length work.old.items) }
{
    counts[node] = counts[node].saturating_sub(1);
    if counts[node] == 0 {
        mark(node, seen, work)?;
    }
    Ok(())
}

// The same for each of the nodes.
pub(crate) fn lower_all(
    nodes: &[usize],
    counts: &mut Vec<usize>,
    seen: &mut Vec<bool>,
    work: &mut Vec<usize>,
) -> Result<(), AllocError>
    requires nodes { AreBelow (length seen.old.items) nodes.now }
    requires counts { length counts.old.items ≡ length seen.old.items }
    requires work { AreBelow (length seen.old.items) work.old.items }
    ensures counts { length counts.new.items ≡ length counts.old.items }
    ensures length { length seen.new.items ≡ length seen.old.items }
    ensures work { OnOk result (AreBelow (length seen.new.items) work.new.items) }
    ensures count { OnOk result (unseen seen.new.items + length work.new.items ≡ unseen seen.old.items + length work.old.items) }
{
    for node in nodes {
        lower(*node, counts, seen, work)?;
    }
    Ok(())
}
