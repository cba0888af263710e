//! The items of activations, and the nodes in them.

ghost use Rattle.std.specs.Prelude.{◌≡◌, option_map};
ghost use Rattle.lisa_tree.specs.Activations.{act_tree, act_trees};
ghost use Rattle.least_fixed_points.specs.Settles.{entry};
ghost use Rattle.lisa_tree.specs.Operations.{sections_at, activation_in};
ghost use Rattle.text_counts.specs.Activations.{item_nodes, items_nodes, activation_nodes};

use crate::expressions::expression_nodes;
use crate::sums::{one_more, plus};
use description_types::sections;
use lisa_tree::{Act, Names, activation};

// What an item counts, by what is known of the expressions of operations.
#[cycle(items)]
fn item_nodes<N: Names>(
    names: &N,
    table: &[Option<u64>],
    operation: usize,
    item: &Act,
) -> Option<u64>
    ensures { result ≡ item_nodes (entry table.now) (N.tree names.now) operation (act_tree item.now) }
{
    match item {
        Act::Start(_) => Some(1),
        Act::Choose(test, chosen, other) => {
            let weight = expression_nodes(names, table, operation, test);
            let chosen = items_nodes(names, table, operation, chosen);
            match other {
                None => one_more(plus(weight, chosen)),
                Some(other) => {
                    let other = items_nodes(names, table, operation, other);
                    one_more(plus(weight, plus(chosen, other)))
                }
            }
        }
    }
}

// The same of a list of items.
#[cycle(items)]
fn items_nodes<N: Names>(
    names: &N,
    table: &[Option<u64>],
    operation: usize,
    all: &[Act],
) -> Option<u64>
    ensures { result ≡ items_nodes (entry table.now) (N.tree names.now) operation (act_trees all.now) }
{
    let mut sum = Some(0);
    for item in all {
        sum = plus(sum, item_nodes(names, table, operation, item));
    }
    sum
}

/// What an operation's activation counts.
pub(crate) fn activation_nodes<N: Names>(
    names: &N,
    table: &[Option<u64>],
    operation: usize,
) -> Option<u64>
    ensures { result ≡ activation_nodes (entry table.now) (N.tree names.now) operation (activation_in (sections_at (N.tree names.now) operation)) }
{
    match activation(sections(names, operation)) {
        None => Some(0),
        Some(all) => items_nodes(names, table, operation, all),
    }
}
