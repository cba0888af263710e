//! The greatest number that comes to each node of a graph.

ghost use Rattle.std.specs.Prelude.{◌≡◌, ℕ, ◌+◌, ◌<◌, [], length, IfOk, OnOk, not, ◌||◌, ◌&&◌, nat_eq, true};
ghost use Rattle.std.specs.Option.{is_some};
ghost use Rattle.graph_paths.specs.Paths.{AreNodes, is_in, Leads};
ghost use Rattle.stage_checks.specs.Spreading.{entry, given, unset, IsGreatest, Spreading, AreSourced};

use graph_paths::row;
use std::alloc::{AllocError, Global};

// Notes a number at a node that has none, and the node as one to go on from.
fn mark(
    node: usize,
    rank: usize,
    table: &mut Vec<Option<usize>>,
    work: &mut Vec<usize>,
) -> Result<(), AllocError>
    requires { node < length table.old.items }
    ensures length { length table.new.items ≡ length table.old.items }
    ensures table { OnOk result ((b : ℕ) → entry table.new.items b ≡ given (entry table.old.items b) (nat_eq b node) rank) }
    ensures work { OnOk result ((b : ℕ) → is_in b work.new.items ≡ (is_in b work.old.items || (nat_eq b node && not (is_some (entry table.old.items b))))) }
    ensures count { OnOk result (unset table.new.items + length work.new.items ≡ unset table.old.items + length work.old.items) }
{
    if table[node].is_some() {
        return Ok(());
    }
    work.push(node)?;
    table[node] = Some(rank);
    Ok(())
}

// Notes a number at each of the nodes.
fn mark_all(
    nodes: &[usize],
    rank: usize,
    table: &mut Vec<Option<usize>>,
    work: &mut Vec<usize>,
) -> Result<(), AllocError>
    requires { (b : ℕ) → is_in b nodes.now ≡ true → b < length table.old.items }
    ensures length { length table.new.items ≡ length table.old.items }
    ensures table { OnOk result ((b : ℕ) → entry table.new.items b ≡ given (entry table.old.items b) (is_in b nodes.now) rank) }
    ensures work { OnOk result ((b : ℕ) → is_in b work.new.items ≡ (is_in b work.old.items || (is_in b nodes.now && not (is_some (entry table.old.items b))))) }
    ensures count { OnOk result (unset table.new.items + length work.new.items ≡ unset table.old.items + length work.old.items) }
{
    for node in nodes {
        mark(*node, rank, table, work)?;
    }
    Ok(())
}

// Follows the edges on from where a number starts.
fn spread(
    alloc: Global,
    next: &[Vec<usize>],
    sources: &[Vec<usize>],
    rank: usize,
    table: &mut Vec<Option<usize>>,
) -> Result<(), AllocError>
    requires rank { rank < length sources.now }
    requires nodes { AreNodes next.now }
    requires sources { (t b : ℕ) → Leads sources.now t b → b < length next.now }
    requires spreading { Spreading next.now sources.now (rank + 1) table.old.items [] }
    requires sourced { AreSourced sources.now (rank + 1) table.old.items }
    ensures spreading { OnOk result (Spreading next.now sources.now rank table.new.items []) }
    ensures sourced { OnOk result (AreSourced sources.now rank table.new.items) }
{
    let mut work = Vec::new(alloc);
    mark_all(row(sources, rank), rank, table, &mut work)?;
    'going: while let Some(node) = work.pop() {
        mark_all(row(next, node), rank, table, &mut work)?;
    }
    Ok(())
}

/// The greatest number that comes to each node, where row `t` of the sources has the nodes that the number `t` starts from. Each edge is
/// followed once.
pub(crate) fn greatest(
    alloc: Global,
    next: &[Vec<usize>],
    sources: &[Vec<usize>],
) -> Result<Vec<Option<usize>>, AllocError>
    requires nodes { AreNodes next.now }
    requires sources { (t b : ℕ) → Leads sources.now t b → b < length next.now }
    ensures length { IfOk result (λ table. length table.items ≡ length next.now) }
    ensures greatest { IfOk result (λ table. (b : ℕ) → IsGreatest next.now sources.now b (entry table.items b)) }
{
    let mut table = vec![in alloc; None; next.len()]?;
    let mut rank = sources.len();
    while rank > 0 {
        rank -= 1;
        spread(alloc, next, sources, rank, &mut table)?;
    }
    Ok(table)
}
