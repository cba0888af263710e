//! The edges from references to what they may mean.

ghost use Rattle.std.specs.Prelude.{◌≡◌, ◌<◌, ◌+◌, ◌^◌, ◌||◌, ◌&&◌, ℕ, OnOk, length, nat_eq, true};
ghost use Rattle.graph_paths.specs.Paths.{targets, is_in};
ghost use Rattle.lisa_tree.specs.Declarations.{entries};
ghost use Rattle.lisa_tree.specs.Paths.{Declaring, node_count, leads};
ghost use Rattle.description_graph.specs.Graph.{first_entry, means, shifted, to_meanings, to_meanings_of, to_row, to_rows};
ghost use Rattle.meant_declarations.specs.Meanings.{AreSources};

use crate::meanings::row_at;
use crate::rows::is_reference;
use graph_paths::add_edge;
use lisa_tree::Names;
use std::alloc::AllocError;

// What a declared name may mean, if it is a reference.
fn meant<'a, N: Names>(names: &N, rows: &'a [Vec<usize>], entry: usize) -> &'a [usize]
    requires rows { (x y : ℕ) → is_in y (targets rows.now x) ≡ means (N.tree names.now) x y }
    ensures { (other : ℕ) → is_in other result.now ≡ leads (N.tree names.now) (Declaring entry) (Declaring other) }
{
    if !is_reference(names, entry) {
        return &[];
    }
    match names.name_at(entry) {
        Some(name) => match names.declared_at(names.owner_at(entry), name) {
            Some(first) => row_at(rows, first),
            None => &[],
        },
        None => &[],
    }
}

// Adds edges from a node to those of these numbers, counted from a base.
fn add_shifted(
    from: usize,
    base: usize,
    numbers: &[usize],
    next: &mut Vec<Vec<usize>>,
) -> Result<(), AllocError>
    requires from { from < length next.old.items }
    requires numbers { (i : ℕ) → is_in i numbers.now ≡ true → base + i < 2 ^ 64 }
    ensures next { length next.new.items ≡ length next.old.items }
    ensures added { OnOk result ((a b : ℕ) → is_in b (targets next.new.items a) ≡ (is_in b (targets next.old.items a) || (nat_eq a from && shifted base numbers.now b))) }
{
    for number in numbers {
        add_edge(next, from, base + *number)?;
    }
    Ok(())
}

// Adds the edges from a reference to what it may mean.
fn add_meant<N: Names>(
    names: &N,
    rows: &[Vec<usize>],
    first: usize,
    entry: usize,
    next: &mut Vec<Vec<usize>>,
) -> Result<(), AllocError>
    requires rows { (x y : ℕ) → is_in y (targets rows.now x) ≡ means (N.tree names.now) x y }
    requires first { first ≡ first_entry (N.tree names.now) }
    requires entry { entry < length (entries (N.tree names.now)) }
    requires next { length next.old.items ≡ node_count (N.tree names.now) }
    requires room { node_count (N.tree names.now) < 2 ^ 64 }
    ensures next { length next.new.items ≡ length next.old.items }
    ensures added { OnOk result ((a b : ℕ) → is_in b (targets next.new.items a) ≡ (is_in b (targets next.old.items a) || (nat_eq a (first + entry) && to_meanings_of (N.tree names.now) entry b))) }
{
    let row = meant(names, rows, entry);
    add_shifted(first + entry, first, row, next)?;
    Ok(())
}

/// Adds the edges from references to what they may mean.
pub(crate) fn add_meanings<N: Names>(
    names: &N,
    rows: &[Vec<usize>],
    first: usize,
    next: &mut Vec<Vec<usize>>,
) -> Result<(), AllocError>
    requires rows { (x y : ℕ) → is_in y (targets rows.now x) ≡ means (N.tree names.now) x y }
    requires first { first ≡ first_entry (N.tree names.now) }
    requires next { length next.old.items ≡ node_count (N.tree names.now) }
    requires room { node_count (N.tree names.now) < 2 ^ 64 }
    ensures next { length next.new.items ≡ length next.old.items }
    ensures added { OnOk result ((a b : ℕ) → is_in b (targets next.new.items a) ≡ (is_in b (targets next.old.items a) || to_meanings (N.tree names.now) (length (entries (N.tree names.now))) a b)) }
{
    for entry in 0..names.entry_count() {
        add_meant(names, rows, first, entry, next)?;
    }
    Ok(())
}

// Adds the edges from a declared name to those of its row.
fn add_row_of<N: Names>(
    names: &N,
    rows: &[Vec<usize>],
    first: usize,
    entry: usize,
    next: &mut Vec<Vec<usize>>,
) -> Result<(), AllocError>
    requires rows { AreSources (N.tree names.now) rows.now }
    requires first { first ≡ first_entry (N.tree names.now) }
    requires entry { entry < length (entries (N.tree names.now)) }
    requires next { length next.old.items ≡ node_count (N.tree names.now) }
    requires room { node_count (N.tree names.now) < 2 ^ 64 }
    ensures next { length next.new.items ≡ length next.old.items }
    ensures added { OnOk result ((a b : ℕ) → is_in b (targets next.new.items a) ≡ (is_in b (targets next.old.items a) || (nat_eq a (first + entry) && to_row (N.tree names.now) rows.now entry b))) }
{
    let row = row_at(rows, entry);
    add_shifted(first + entry, first, row, next)?;
    Ok(())
}

/// Adds the edges from references to some of what they mean, from which the rest is reached.
pub(crate) fn add_sources<N: Names>(
    names: &N,
    rows: &[Vec<usize>],
    first: usize,
    next: &mut Vec<Vec<usize>>,
) -> Result<(), AllocError>
    requires rows { AreSources (N.tree names.now) rows.now }
    requires first { first ≡ first_entry (N.tree names.now) }
    requires next { length next.old.items ≡ node_count (N.tree names.now) }
    requires room { node_count (N.tree names.now) < 2 ^ 64 }
    ensures next { length next.new.items ≡ length next.old.items }
    ensures added { OnOk result ((a b : ℕ) → is_in b (targets next.new.items a) ≡ (is_in b (targets next.old.items a) || to_rows (N.tree names.now) rows.now (length (entries (N.tree names.now))) a b)) }
{
    for entry in 0..names.entry_count() {
        add_row_of(names, rows, first, entry, next)?;
    }
    Ok(())
}
