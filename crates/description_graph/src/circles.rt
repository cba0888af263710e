//! Operations that lead back to themselves.

ghost use Rattle.std.specs.Prelude.{IfOk};
ghost use Rattle.description_graph.specs.Circles.{IsFirstCircularOperation};
ghost use Rattle.description_graph.specs.Graph.{IsOutline};

use crate::graph::outline;
use crate::owners::operation_count;
use graph_paths::first_circular;
use lisa_tree::Names;
use std::alloc::{AllocError, Global};

/// The first operation, in source order, that leads to itself by groups, instances and references, where all that
/// nodes lead to is reached by these edges.
pub fn first_circular_among<N: Names>(
    alloc: Global,
    names: &N,
    next: &[Vec<usize>],
) -> Result<Option<usize>, AllocError>
    requires { IsOutline (N.tree names.now) next.now }
    ensures { IfOk result (λ found. IsFirstCircularOperation (N.tree names.now) found) }
{
    match first_circular(alloc, next)? {
        Some(node) => {
            if node < operation_count(names) {
                Ok(Some(node))
            } else {
                Ok(None)
            }
        }
        None => Ok(None),
    }
}

/// The first operation, in source order, that leads to itself by groups, instances and references.
pub fn first_circular_operation<N: Names>(
    alloc: Global,
    names: &N,
) -> Result<Option<usize>, AllocError>
    ensures { IfOk result (λ found. IsFirstCircularOperation (N.tree names.now) found) }
{
    let next = outline(alloc, names)?;
    first_circular_among(alloc, names, &next)
}
