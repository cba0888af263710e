//! The first size of a description that exceeds its limit, or what the description unfolds to.

ghost use Rattle.std.specs.Prelude.{◌≡◌, ◌∷◌, ◌++◌, [], None, Some, find, length, map, option_map, IfOk, MatchResult};
ghost use Rattle.activation_trees.specs.description_graph.Circles.{IsFirstCircularOperation};
ghost use Rattle.machine_parts.specs.Parts.{registers_of};
ghost use Rattle.activation_trees.specs.Unfolding.{occurrences};
ghost use Rattle.description_sizes.specs.Limits.{exceeds, told};
ghost use Rattle.description_sizes.specs.Sizes.{counted_sizes, written_sizes, unfolded_sizes, size_fault};
ghost use Rattle.description_sizes.specs.Outcomes.{IsUnfolded};

use crate::resources::{count_arrays, count_cells, count_pins, count_stages, registers};
use crate::sizes::{Measure, Size, amount, fault, first_exceeding};
use crate::texts::{count_nodes, count_statements};
use activation_trees::{
    Item, Occurrence, count_items, count_occurrences, items, occurrences, operation_count,
};
use lisa_tree::{DescFault, Names};
use lisa_words::NoMemory;
use std::alloc::Global;
use text_counts::TextCounts;

/// What a description unfolds to whose sizes are within their limits.
#[derive(Drop)]
pub struct Unfolded {
    /// The occurrences in the order of their numbers.
    pub occurrences: Vec<Occurrence>,
    /// All items, the registers first.
    pub items: Vec<Item>,
}

// The sizes that are told without unfolding activations.
fn written_sizes<N: Names>(names: &N, forms: u64) -> [Size; 6]
    ensures { result ≡ map told (written_sizes (N.tree names.now) forms) }
{
    let resources = names.description().resources.as_slice();
    [
        amount(Measure::Stages, count_stages(resources)),
        amount(Measure::Pins, count_pins(resources)),
        amount(Measure::Operations, operation_count(names) as u64),
        amount(Measure::Arrays, count_arrays(resources)),
        amount(Measure::Cells, count_cells(resources)),
        amount(Measure::Forms, forms),
    ]
}

// The first size that exceeds its limit, where nothing is unfolded.
fn first_counted<N: Names>(alloc: Global, names: &N, forms: u64) -> Result<Option<Size>, NoMemory>
    requires acyclic { IsFirstCircularOperation (N.tree names.now) None }
    ensures { IfOk result (λ found. found ≡ option_map told (find exceeds (counted_sizes (N.tree names.now) forms))) }
{
    if let Some(size) = first_exceeding(&written_sizes(names, forms)) {
        return Ok(Some(size));
    }
    let count = count_occurrences(alloc, names)?;
    Ok(first_exceeding(&[amount(Measure::Occurrences, count)]))
}

// The sizes that are told by the occurrences.
fn unfolded_sizes<N: Names>(
    alloc: Global,
    names: &N,
    registers: u64,
    width: Option<u32>,
    all: &[Occurrence],
) -> Result<[Size; 3], NoMemory>
    requires acyclic { IsFirstCircularOperation (N.tree names.now) None }
    requires registers { registers ≡ length (registers_of (N.tree names.now)) }
    requires all { all.now ≡ occurrences (N.tree names.now) }
    ensures { IfOk result (λ sizes. sizes ≡ map told (unfolded_sizes (N.tree names.now) width)) }
{
    let counts = TextCounts::make(alloc, names)?;
    let items = count_items(names, registers, width, all);
    let statements = count_statements(alloc, names, &counts, all)?;
    let nodes = count_nodes(alloc, names, &counts, all)?;
    Ok([
        amount(Measure::Items, items),
        amount(Measure::Statements, statements),
        amount(Measure::Nodes, nodes),
    ])
}

// Unfolds a description of which nothing is too much that is counted before.
fn unfold_few<N: Names>(
    alloc: Global,
    names: &N,
    forms: u64,
    width: Option<u32>,
) -> Result<Result<Unfolded, DescFault>, NoMemory>
    requires acyclic { IsFirstCircularOperation (N.tree names.now) None }
    requires few { option_map told (find exceeds (counted_sizes (N.tree names.now) forms)) ≡ None }
    ensures { IfOk result (λ found. MatchResult found (IsUnfolded (N.tree names.now) width forms) (λ fault. size_fault (N.tree names.now) width forms ≡ Some fault)) }
{
    let occurrences = occurrences(alloc, names)?;
    let registers = registers(alloc, names.description())?;
    let sizes = unfolded_sizes(alloc, names, registers.len() as u64, width, &occurrences)?;
    match first_exceeding(&sizes) {
        Some(size) => {
            let fault = fault(alloc, size)?;
            Ok(Err(fault))
        }
        None => {
            let items = items(alloc, names, registers, width, &occurrences)?;
            Ok(Ok(Unfolded { occurrences, items }))
        }
    }
}

/// Unfolds a description whose instructions have so many forms, and this width, if there are any. Where a size exceeds its limit, the
/// first such one is the fault. Nothing is unfolded before the number of occurrences is known to be within its limit, so the time is in
/// proportion to the description, beside that for the occurrences and for what references may choose.
pub fn unfold<N: Names>(
    alloc: Global,
    names: &N,
    forms: u64,
    width: Option<u32>,
) -> Result<Result<Unfolded, DescFault>, NoMemory>
    requires acyclic { IsFirstCircularOperation (N.tree names.now) None }
    ensures { IfOk result (λ found. MatchResult found (IsUnfolded (N.tree names.now) width forms) (λ fault. size_fault (N.tree names.now) width forms ≡ Some fault)) }
{
    let first = first_counted(alloc, names, forms)?;
    match first {
        Some(size) => {
            let fault = fault(alloc, size)?;
            Ok(Err(fault))
        }
        None => {
            let found = unfold_few(alloc, names, forms, width)?;
            Ok(found)
        }
    }
}
