//! How many occurrences there are, by sums over operations: nothing is unfolded.

ghost use Rattle.std.specs.Prelude.{◌≡◌, ◌+◌, Some, None, IfOk, length};
ghost use Rattle.lisa_machine.specs.description_graph.Circles.{IsFirstCircularOperation};
ghost use Rattle.least_fixed_points.specs.Settles.{entry};
ghost use Rattle.activation_trees.specs.Starting.{AreStarts};
ghost use Rattle.activation_trees.specs.Unfolding.{capped, counted, occurrences, occurrence_count};
ghost use Rattle.activation_trees.specs.Twice.{root_before, is_twice, first_root_twice};
ghost use Rattle.activation_trees.specs.Sums.{weight, added, summed, start_nodes, sum_step, sum_count, sums_monotone, sums_end};

use crate::parts::Start;
use crate::starts::{all_starts, row};
use crate::unfolding::main_at;
use graph_paths::visiting_order;
use least_fixed_points::{Rule, settle_along};
use lisa_machine::{is_root, known_choice, known_operation, operation_count, plain_edges};
use lisa_tree::Names;
use lisa_words::NoMemory;
use std::alloc::Global;

// An operation counts once, or only where it is this one.
fn weight(only: Option<usize>, operation: usize) -> u64
    ensures { result ≡ weight only operation }
{
    match only {
        None => 1,
        Some(counted) => { if operation == counted { 1 } else { 0 } }
    }
}

fn added(left: Option<u64>, right: Option<u64>) -> Option<u64>
    ensures { result ≡ added left right }
{
    match (left, right) {
        (Some(left), Some(right)) => Some(left.saturating_add(right)),
        _ => None,
    }
}

// What is below the items of an operation, and the operation itself.
#[tactic(auto, using(crate::proofs::Children::one_node))]
fn sum_of_starts<N: Names>(
    names: &N,
    table: &[Option<u64>],
    first: u64,
    starts: &[Start],
) -> Option<u64>
    ensures { result ≡ summed (entry table.now) (Some first) (start_nodes (N.tree names.now) starts.now) }
{
    let mut so_far = Some(first);
    for start in starts {
        so_far = added(so_far, known_choice(names, table, start.choice));
    }
    so_far
}

// What is below these operations.
fn sum_of(table: &[Option<u64>], operations: &[usize]) -> Option<u64>
    ensures { result ≡ summed (entry table.now) (Some 0) operations.now }
{
    let mut so_far = Some(0);
    for &operation in operations {
        so_far = added(so_far, known_operation(table, operation));
    }
    so_far
}

// The rule by which sums follow: an operation counts itself and what its items have, a choice what its alternatives have.
#[derive(Drop)]
struct Sums<'a, N: Names> {
    names: &'a N,
    rows: &'a [Vec<Start>],
    only: Option<usize>,
    ghost starts: { AreStarts (N.tree names.now) rows.now },
}

impl<'a, N: Names> Rule<u64> for Sums<'a, N> {
    ghost step = { λ c. sum_step (N.tree c.names.now) c.only };

    ghost count = { λ c. sum_count (N.tree c.names.now) };

    fn apply(&self, table: &[Option<u64>], node: usize) -> Option<u64> {
        let operations = operation_count(self.names);
        if node < operations {
            let first = weight(self.only, node);
            return sum_of_starts(self.names, table, first, row(self.rows, node));
        }
        sum_of(table, self.names.plain_at(node - operations))
    }

    ghost monotone = { λ c. sums_monotone (N.tree c.names.now) c.only };

    ghost ends = { λ c. sums_end (N.tree c.names.now) c.only };
}

// How many operations and choices there are. As many as no table holds are answered as want of memory.
fn sum_count<N: Names>(names: &N) -> Result<usize, NoMemory>
    ensures { IfOk result (λ count. count ≡ sum_count (N.tree names.now)) }
{
    match operation_count(names).checked_add(names.choice_count()) {
        None => Err(NoMemory),
        Some(count) => Ok(count),
    }
}

// How many occurrences there are, or how many of one operation.
fn count<N: Names>(alloc: Global, names: &N, only: Option<usize>) -> Result<u64, NoMemory>
    requires acyclic { IsFirstCircularOperation (N.tree names.now) None }
    ensures { IfOk result (λ count. count ≡ capped (length (counted only (occurrences (N.tree names.now))))) }
{
    let Some(main) = main_at(alloc, names)? else {
        return Ok(0);
    };
    let count = sum_count(names)?;
    let rows = all_starts(alloc, names)?;
    let next = plain_edges(alloc, names)?;
    let order = visiting_order(alloc, &next)?;
    let rule = Sums {
        names,
        rows: &rows,
        only,
    };
    let table = settle_along(alloc, &rule, count, &order)?;
    Ok(known_operation(&table, main).unwrap_or(0))
}

/// How many occurrences there are. The items of activations and the lists of alternatives are gone over twice, and nothing is unfolded, so
/// any number is counted at once.
pub fn count_occurrences<N: Names>(alloc: Global, names: &N) -> Result<u64, NoMemory>
    requires acyclic { IsFirstCircularOperation (N.tree names.now) None }
    ensures { IfOk result (λ count. count ≡ occurrence_count (N.tree names.now)) }
{
    count(alloc, names, None)
}

// Whether an operation has the root, and one before it has, or it has two occurrences.
#[tactic(auto, using(crate::proofs::Twice::two_are_counted))]
fn is_twice<N: Names>(
    alloc: Global,
    names: &N,
    earlier: bool,
    operation: usize,
) -> Result<bool, NoMemory>
    requires acyclic { IsFirstCircularOperation (N.tree names.now) None }
    requires before { earlier ≡ root_before (N.tree names.now) operation }
    ensures { IfOk result (λ twice. twice ≡ is_twice (N.tree names.now) operation) }
{
    if !is_root(names, operation) {
        return Ok(false);
    }
    if earlier {
        return Ok(true);
    }
    let count = count(alloc, names, Some(operation))?;
    Ok(count > 1)
}

/// The first operation that has a root where an earlier one has, or where it has two occurrences. The occurrences of one operation alone
/// are counted.
#[tactic(auto, using(crate::proofs::Twice::goes_past, crate::proofs::Twice::stops_at))]
pub fn first_root_twice<N: Names>(alloc: Global, names: &N) -> Result<Option<usize>, NoMemory>
    requires acyclic { IsFirstCircularOperation (N.tree names.now) None }
    ensures { IfOk result (λ found. found ≡ first_root_twice (N.tree names.now)) }
{
    let mut before = false;
    for operation in 0..operation_count(names) {
        if is_twice(alloc, names, before, operation)? {
            return Ok(Some(operation));
        }
        before = before || is_root(names, operation);
    }
    Ok(None)
}
