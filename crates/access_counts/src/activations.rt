//! The conditions of activations.

ghost use Rattle.lisa_tree.specs.Activations.{act_tree, act_trees};
ghost use Rattle.access_counts.specs.Accesses.{item_accesses, items_accesses};
ghost use Rattle.access_counts.specs.Ledgers.{HasRoom, IsAdded};

use crate::expressions::note_value;
use crate::ledger::Ledger;
use lisa_tree::{Act, Names};

// Notes what an item's conditions do, so many times.
#[cycle(items)]
fn note_item<N: Names>(names: &N, operation: usize, times: u64, item: &Act, ledger: &mut Ledger)
    requires { HasRoom (N.tree names.now) ledger.old }
    ensures { IsAdded (N.tree names.now) operation ledger.old ledger.new times (λ a names. item_accesses a names (act_tree item.now)) }
{
    match item {
        Act::Start(_) => {}
        Act::Choose(test, chosen, other) => {
            note_value(names, operation, times, test, ledger);
            note_activation(names, operation, times, chosen, ledger);
            match other {
                None => {}
                Some(other) => note_activation(names, operation, times, other, ledger),
            }
        }
    }
}

/// Notes what the conditions of an operation's activation do, so many times.
#[cycle(items)]
pub(crate) fn note_activation<N: Names>(
    names: &N,
    operation: usize,
    times: u64,
    all: &[Act],
    ledger: &mut Ledger,
)
    requires { HasRoom (N.tree names.now) ledger.old }
    ensures { IsAdded (N.tree names.now) operation ledger.old ledger.new times (λ a names. items_accesses a names (act_trees all.now)) }
{
    if times == 0 {
        return;
    }
    for item in all {
        note_item(names, operation, times, item, ledger);
    }
}
