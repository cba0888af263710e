//! References whose direct meanings have other values than they have themselves.

ghost use Rattle.std.specs.Prelude.{◌≡◌, ◌<◌, ℕ, length, IfOk};
ghost use Rattle.std.specs.List.{list_any};
ghost use Rattle.graph_paths.specs.Paths.{saw, targets};
ghost use Rattle.least_fixed_points.specs.Settles.{entry};
ghost use Rattle.meant_declarations.specs.Walks.{found_value, are_other};

use crate::walking::entry_at;
use graph_paths::row;
use std::alloc::{AllocError, Global};

fn found_value<T: Copy>(values: &[Option<T>], found: Option<usize>) -> Option<T>
    ensures { result ≡ found_value (entry values.now) found }
{
    match found {
        None => None,
        Some(number) => entry_at(values, number),
    }
}

/// The values of what was found.
pub(crate) fn found_values<T: Copy>(
    alloc: Global,
    values: &[Option<T>],
    found: &[Option<usize>],
) -> Result<Vec<Option<T>>, AllocError>
    ensures { IfOk result (λ all. (i : ℕ) → entry all.items i ≡ found_value (entry values.now) (entry found.now i)) }
{
    let mut all = Vec::new(alloc);
    for &number in found {
        all.push(found_value(values, number))?;
    }
    Ok(all)
}

fn are_other<T: Eq + Copy>(left: Option<T>, right: Option<T>) -> bool
    ensures { result ≡ are_other T.PartialEq.eq left right }
{
    match (left, right) {
        (Some(left), Some(right)) => left != right,
        _ => false,
    }
}

// Whether some nodes have other values than one.
fn is_mixed<T: Eq + Copy>(values: &[Option<T>], own: Option<T>, nodes: &[usize]) -> bool
    ensures { result ≡ list_any (λ k. are_other T.PartialEq.eq own (entry values.now k)) nodes.now }
{
    for &node in nodes {
        if are_other(own, entry_at(values, node)) {
            return true;
        }
    }
    false
}

/// The nodes that lead to one with another value than they have.
pub(crate) fn mixed<T: Eq + Copy>(
    alloc: Global,
    next: &[Vec<usize>],
    values: &[Option<T>],
) -> Result<Vec<bool>, AllocError>
    ensures { IfOk result (λ marked. (i : ℕ) → saw marked.items i ≡ list_any (λ k. are_other T.PartialEq.eq (entry values.now i) (entry values.now k)) (targets next.now i)) }
{
    let mut marked = Vec::new(alloc);
    for node in 0..next.len() {
        marked.push(is_mixed(values, entry_at(values, node), row(next, node)))?;
    }
    Ok(marked)
}
