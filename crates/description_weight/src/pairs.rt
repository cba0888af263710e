//! Pairs of a read and a write of one array.

ghost use Rattle.std.specs.Prelude.{◌≡◌, ◌*◌, ◌<◌, ℕ, None, IfOk, get_or, length, sum_by};
ghost use Rattle.std.specs.List.{AllByRecursion, range_with_len};
ghost use Rattle.description_sizes.specs.activation_trees.Unfolding.{occurrences};
ghost use Rattle.description_graph.specs.Circles.{IsFirstCircularOperation};
ghost use Rattle.text_counts.specs.References.{AreMeanings};
ghost use Rattle.graph_paths.specs.Paths.{targets};
ghost use Rattle.access_counts.specs.Ledgers.{capped, worth, HasRoom};
ghost use Rattle.description_weight.specs.Weights.{reads_of, writes_of, pairs};

use crate::chosen::Chosen;
use access_counts::{Ledger, count_accesses, zeros};
use description_graph::plain_edges;
use description_sizes::Occurrence;
use description_types::operation_count;
use lisa_tree::Names;
use lisa_words::NoMemory;
use std::alloc::Global;
use text_counts::Meanings;

// How often each operation occurs.
fn times(alloc: Global, count: usize, occurrences: &[Occurrence]) -> Result<Vec<u64>, NoMemory>
    requires { AllByRecursion (λ x. x.operation < count) occurrences.now }
    ensures { IfOk result (λ times. (price : ℕ → ℕ) → capped (worth price times.items) ≡ capped (sum_by (λ x. price x.operation) occurrences.now)) }
{
    let mut times = zeros(alloc, count)?;
    for occurrence in occurrences {
        let operation = occurrence.operation as usize;
        times[operation] = times[operation].saturating_add(1);
    }
    Ok(times)
}

// The pairs, by how often each array is read and written.
fn sum_of_products(reads: &[u64], writes: &[u64]) -> u64
    requires { length writes.now ≡ length reads.now }
    ensures { result ≡ capped (sum_by (λ k. get_or reads.now k 0 * get_or writes.now k 0) (range_with_len 0 (length reads.now))) }
{
    let mut sum: u64 = 0;
    for array in 0..reads.len() {
        sum = sum.saturating_add(reads[array].saturating_mul(writes[array]));
    }
    sum
}

// How often elements of each array are read and written.
fn accesses<N: Names>(
    alloc: Global,
    names: &N,
    meanings: &Meanings,
    all: &[Occurrence],
) -> Result<Ledger, NoMemory>
    requires acyclic { IsFirstCircularOperation (N.tree names.now) None }
    requires meanings { AreMeanings (N.tree names.now) (targets meanings.now) }
    requires all { all.now ≡ occurrences (N.tree names.now) }
    ensures room { IfOk result (HasRoom (N.tree names.now)) }
    ensures reads { IfOk result (λ ledger. (k : ℕ) → capped (get_or ledger.reads.items k 0) ≡ capped (reads_of (N.tree names.now) k)) }
    ensures writes { IfOk result (λ ledger. (k : ℕ) → capped (get_or ledger.writes.items k 0) ≡ capped (writes_of (N.tree names.now) k)) }
{
    let times = times(alloc, operation_count(names), all)?;
    let next = plain_edges(alloc, names)?;
    let chosen = Chosen { names, meanings };
    let ledger = count_accesses(alloc, names, &chosen, next.len() + 1, &times)?;
    Ok(ledger)
}

/// How many pairs of a read and a write of one array the unfolded text has, up to 2^64 - 1.
pub(crate) fn pairs<N: Names>(
    alloc: Global,
    names: &N,
    meanings: &Meanings,
    all: &[Occurrence],
) -> Result<u64, NoMemory>
    requires acyclic { IsFirstCircularOperation (N.tree names.now) None }
    requires meanings { AreMeanings (N.tree names.now) (targets meanings.now) }
    requires all { all.now ≡ occurrences (N.tree names.now) }
    ensures { IfOk result (λ count. count ≡ capped (pairs (N.tree names.now))) }
{
    let ledger = accesses(alloc, names, meanings, all)?;
    Ok(sum_of_products(&ledger.reads, &ledger.writes))
}
