//! The widths of operations and choices, found out once.

ghost use Rattle.std.specs.Prelude.{◌≡◌, ℕ, List, Option, Some, IfOk};
ghost use Rattle.std.specs.List.{list_all};
ghost use Rattle.lisa_tree.specs.Operations.{coding_in, sections_at};
ghost use Rattle.lisa_tree.specs.Paths.{choice_node};
ghost use Rattle.least_fixed_points.specs.Settles.{entry};
ghost use Rattle.coding_checks.specs.Widths.{has_width, shared_width, alternatives_width, choice_of, choice_named, child_width, item_width, added, items_width, coding_width, width_step, AreWidths};
ghost use Rattle.coding_checks.specs.Steady.{width_count, widths_monotone, widths_end};

use coded_names::pattern_width;
use description_graph::plain_edges;
use description_types::{known_choice, known_operation, operation_count, sections};
use graph_paths::visiting_order;
use least_fixed_points::{Rule, settle_along};
use lisa_tree::{CodingItem, CodingPart, Names, What, coding};
use lisa_words::{Name, NoMemory};
use std::alloc::Global;
use std::marker::Model;

fn choice_of(what: Option<What>) -> Option<usize>
    ensures { result ≡ choice_of what }
{
    match what {
        Some(What::Group(choice)) | Some(What::Instance(choice)) => Some(choice),
        _ => None,
    }
}

/// The number of the group or instance that an operation declares by a name.
pub(crate) fn choice_named<N: Names>(names: &N, operation: usize, name: &Name) -> Option<usize>
    ensures { result ≡ choice_named (N.tree names.now) operation name.now }
{
    match names.declared_at(operation, name) {
        None => None,
        Some(number) => choice_of(names.what_at(number)),
    }
}

/// The width of a child.
pub(crate) fn child_width<N: Names>(
    names: &N,
    table: &[Option<u64>],
    operation: usize,
    name: &Name,
) -> Option<u64>
    ensures { result ≡ child_width (entry table.now) (N.tree names.now) operation name.now }
{
    match choice_named(names, operation, name) {
        None => None,
        Some(choice) => known_choice(names, table, choice),
    }
}

fn item_width<N: Names>(
    names: &N,
    table: &[Option<u64>],
    operation: usize,
    item: &CodingItem,
) -> Option<u64>
    ensures { result ≡ item_width (entry table.now) (N.tree names.now) operation item.now }
{
    match item {
        CodingItem::Bits(pattern) => Some(pattern_width(pattern) as u64),
        CodingItem::Field(_, pattern) => Some(pattern_width(pattern) as u64),
        CodingItem::Child(name) => child_width(names, table, operation, name),
    }
}

fn added(left: Option<u64>, right: Option<u64>) -> Option<u64>
    ensures { result ≡ added left right }
{
    match (left, right) {
        (Some(left), Some(right)) => Some(left.saturating_add(right)),
        _ => None,
    }
}

fn items_width<N: Names>(
    names: &N,
    table: &[Option<u64>],
    operation: usize,
    items: &[CodingItem],
) -> Option<u64>
    ensures { result ≡ items_width (entry table.now) (N.tree names.now) operation (Some 0) items.now }
{
    let mut so_far = Some(0);
    for item in items {
        so_far = added(so_far, item_width(names, table, operation, item));
    }
    so_far
}

fn coding_width<N: Names>(names: &N, table: &[Option<u64>], operation: usize) -> Option<u64>
    ensures { result ≡ coding_width (entry table.now) (N.tree names.now) operation (coding_in (sections_at (N.tree names.now) operation)) }
{
    match coding(sections(names, operation)) {
        Some(CodingPart::Items(items)) => items_width(names, table, operation, items),
        _ => None,
    }
}

fn has_width(width: u64, known: Option<u64>) -> bool
    ensures { result ≡ has_width width known }
{
    match known {
        None => false,
        Some(known) => known == width,
    }
}

// Whether all these operations have this width.
fn all_have(table: &[Option<u64>], operations: &[usize], width: u64) -> bool
    ensures { result ≡ list_all (λ j. has_width width (entry table.now j)) operations.now }
{
    for &operation in operations {
        if !has_width(width, known_operation(table, operation)) {
            return false;
        }
    }
    true
}

// The width of the first alternative, where it is at most 64 and the others have the same.
fn shared_width(table: &[Option<u64>], others: &[usize], first: Option<u64>) -> Option<u64>
    ensures { result ≡ shared_width (entry table.now) others.now first }
{
    match first {
        None => None,
        Some(width) => {
            if width > 64 {
                return None;
            }
            if all_have(table, others, width) {
                Some(width)
            } else {
                None
            }
        }
    }
}

fn alternatives_width(table: &[Option<u64>], operations: &[usize]) -> Option<u64>
    ensures { result ≡ alternatives_width (entry table.now) operations.now }
{
    match operations {
        [] => None,
        [operation, others @ ..] => {
            shared_width(table, others, known_operation(table, *operation))
        }
    }
}

// The rule by which widths follow.
#[derive(Drop)]
struct Following<'a, N> {
    names: &'a N,
}

impl<'a, N: Names> Rule<u64> for Following<'a, N> {
    ghost step = { λ c. width_step (N.tree c.names.now) };

    ghost count = { λ c. width_count (N.tree c.names.now) };

    fn apply(&self, table: &[Option<u64>], node: usize) -> Option<u64> {
        let operations = operation_count(self.names);
        if node < operations {
            return coding_width(self.names, table, node);
        }
        alternatives_width(table, self.names.alternatives_at(node - operations))
    }

    ghost monotone = { λ c. widths_monotone (N.tree c.names.now) };

    ghost ends = { λ c. widths_end (N.tree c.names.now) };
}

/// The widths of a description's operations and of the choices among them, each found at once. An operation has the width of its coding,
/// where it has one that isn't the root's, and each child in it has a width. A choice has that of its alternatives, aliases too, where
/// they share one of at most 64 bits.
///
/// Contracts see it as its table.
#[derive(Drop)]
pub struct Widths {
    table: Vec<Option<u64>>,
}

impl Model for Widths {
    ghost Value = { List (Option ℕ) };

    ghost view = { λ w. w.table.items };
}

// How many operations and choices there are. As many as no table holds are answered as want of memory.
fn width_count<N: Names>(names: &N) -> Result<usize, NoMemory>
    ensures { IfOk result (λ count. count ≡ width_count (N.tree names.now)) }
{
    match operation_count(names).checked_add(names.choice_count()) {
        None => Err(NoMemory),
        Some(count) => Ok(count),
    }
}

impl Widths {
    /// Finds them out. The codings and the lists of alternatives are gone over twice at most, where no operation reaches itself.
    pub fn make<N: Names>(alloc: Global, names: &N) -> Result<Widths, NoMemory>
        ensures { IfOk result (λ widths. AreWidths (N.tree names.now) (entry widths)) }
    {
        let count = width_count(names)?;
        let next = plain_edges(alloc, names)?;
        let order = visiting_order(alloc, &next)?;
        let table = settle_along(alloc, &Following { names }, count, &order)?;
        Ok(Widths { table })
    }

    /// The width of an operation.
    pub fn of_operation(&self, operation: usize) -> Option<u64>
        ensures { result ≡ entry self.now operation }
    {
        known_operation(&self.table, operation)
    }

    /// The width of a choice.
    pub fn of_choice<N: Names>(&self, names: &N, choice: usize) -> Option<u64>
        ensures { result ≡ entry self.now (choice_node (N.tree names.now) choice) }
    {
        known_choice(names, &self.table, choice)
    }

    /// The width of a child of an operation's coding.
    pub(crate) fn of_child<N: Names>(&self, names: &N, operation: usize, name: &Name) -> Option<u64>
        ensures { result ≡ child_width (entry self.now) (N.tree names.now) operation name.now }
    {
        child_width(names, &self.table, operation, name)
    }
}
