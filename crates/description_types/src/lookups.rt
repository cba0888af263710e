//! Resources and operations by their numbers.

ghost use Rattle.std.specs.Prelude.{◌≡◌, ◌+◌, length, map, option_map, slice_get, IfOk};
ghost use Rattle.lisa_tree.specs.Descriptions.{resource_tree, section_tree};
ghost use Rattle.lisa_tree.specs.Operations.{name_at, sections_at};
ghost use Rattle.lisa_tree.specs.Paths.{choice_node, entry_node};
ghost use Rattle.graph_paths.specs.Paths.{saw, targets};
ghost use Rattle.least_fixed_points.specs.Settles.{entry};
ghost use Rattle.description_types.specs.Facts.{any_open};
ghost use Rattle.description_types.specs.Kinds.{lacks_expression};

use lisa_tree::{Names, Resource, Section, expression};
use lisa_words::{Name, NoMemory};
use std::alloc::Global;

/// The resource of a number.
#[tactic(auto, using(crate::proofs::ByNumber::resource_read, crate::proofs::ByNumber::resource_past))]
pub fn resource<N: Names>(names: &N, number: usize) -> Option<&Resource>
    ensures { option_map (λ r. resource_tree r.now) result ≡ slice_get (N.tree names.now).resources number }
{
    let resources = names.description().resources.as_slice();
    if number < resources.len() {
        Some(&resources[number])
    } else {
        None
    }
}

/// The sections of an operation.
#[tactic(auto, using(crate::proofs::ByNumber::operation_read, crate::proofs::ByNumber::operation_past))]
pub fn sections<N: Names>(names: &N, operation: usize) -> &[Section]
    ensures { map section_tree result.now ≡ sections_at (N.tree names.now) operation }
{
    let operations = names.description().operations.as_slice();
    if operation < operations.len() {
        &operations[operation].sections
    } else {
        &[]
    }
}

/// The name of an operation, the empty one where there is none.
#[tactic(auto, using(crate::proofs::ByNumber::operation_read, crate::proofs::ByNumber::operation_past))]
pub fn operation_name<N: Names>(
    alloc: Global,
    names: &N,
    operation: usize,
) -> Result<Name, NoMemory>
    ensures { IfOk result (λ name. name ≡ name_at (N.tree names.now) operation) }
{
    let operations = names.description().operations.as_slice();
    if operation < operations.len() {
        let name = operations[operation].name.clone()?;
        Ok(name)
    } else {
        let name = Name::from_bytes(alloc, &[])?;
        Ok(name)
    }
}

/// The entry of a table at a number behind a base. Past the end there is none.
#[tactic(auto, using(least_fixed_points::proofs::Entries::entry_at, least_fixed_points::proofs::Entries::entry_past))]
pub fn known<T: Copy>(table: &[Option<T>], base: usize, number: usize) -> Option<T>
    ensures { result ≡ entry table.now (base + number) }
{
    match base.checked_add(number) {
        Some(node) => {
            if node < table.len() {
                table[node]
            } else {
                None
            }
        }
        None => None,
    }
}

/// How many operations there are.
pub fn operation_count<N: Names>(names: &N) -> usize
    ensures { result ≡ length (N.tree names.now).operations }
{
    names.description().operations.len()
}

/// What is known of an operation.
#[tactic(auto, using(least_fixed_points::proofs::Entries::entry_at, least_fixed_points::proofs::Entries::entry_past))]
pub fn known_operation<T: Copy>(table: &[Option<T>], operation: usize) -> Option<T>
    ensures { result ≡ entry table.now operation }
{
    if operation < table.len() {
        table[operation]
    } else {
        None
    }
}

/// Whether something isn't known of some operations.
pub fn any_open<T: Copy>(table: &[Option<T>], operations: &[usize]) -> bool
    ensures { result ≡ any_open (entry table.now) operations.now }
{
    for &operation in operations {
        if known_operation(table, operation).is_none() {
            return true;
        }
    }
    false
}

/// Whether some of these operations has no expression.
pub(crate) fn lacks_expression<N: Names>(names: &N, operations: &[usize]) -> bool
    ensures { result ≡ lacks_expression (N.tree names.now) operations.now }
{
    for &operation in operations {
        if expression(sections(names, operation)).is_none() {
            return true;
        }
    }
    false
}

/// What is known of a choice.
pub fn known_choice<T: Copy, N: Names>(names: &N, table: &[Option<T>], choice: usize) -> Option<T>
    ensures { result ≡ entry table.now (choice_node (N.tree names.now) choice) }
{
    known(table, operation_count(names), choice)
}

/// What is known of a declared name.
#[tactic(auto, using(least_fixed_points::proofs::Entries::entry_past))]
pub fn known_entry<T: Copy, N: Names>(names: &N, table: &[Option<T>], number: usize) -> Option<T>
    ensures { result ≡ entry table.now (entry_node (N.tree names.now) number) }
{
    match operation_count(names).checked_add(names.choice_count()) {
        Some(base) => known(table, base, number),
        None => None,
    }
}

/// A mark of a declared name, by a table. There is none past its end.
#[tactic(auto, using(graph_paths::proofs::Seen::saw_at, graph_paths::proofs::Seen::saw_past))]
pub(crate) fn mark_at(marks: &[bool], entry: usize) -> bool
    ensures { result ≡ saw marks.now entry }
{
    if entry < marks.len() {
        marks[entry]
    } else {
        false
    }
}

/// A row by its number, which is empty where there is none.
#[tactic(auto, using(meant_declarations::proofs::Walks::row_past))]
pub(crate) fn row_at(rows: &[Vec<usize>], number: usize) -> &[usize]
    ensures { result.now ≡ targets rows.now number }
{
    if number < rows.len() {
        graph_paths::row(rows, number)
    } else {
        &[]
    }
}
