//! Expressions that are read, and those that are assigned.

ghost use Rattle.lisa_tree.specs.Expressions.{expr_tree};
ghost use Rattle.access_counts.specs.Accesses.{value_accesses, place_accesses};
ghost use Rattle.access_counts.specs.Ledgers.{HasRoom, IsAdded};

use crate::ledger::{Ledger, note_assigned, note_name, note_read, note_write};
use lisa_tree::{Expr, Names};

/// Notes what an expression of an operation does that is read so many times.
pub(crate) fn note_value<N: Names>(
    names: &N,
    operation: usize,
    times: u64,
    expression: &Expr,
    ledger: &mut Ledger,
)
    requires { HasRoom (N.tree names.now) ledger.old }
    ensures { IsAdded (N.tree names.now) operation ledger.old ledger.new times (λ a names. value_accesses a names (expr_tree expression.now)) }
{
    if times == 0 {
        return;
    }
    match expression {
        Expr::Named(name) => note_name(names, operation, times, name, ledger),
        Expr::Number(_, _) | Expr::Input(_) | Expr::Output(_) | Expr::Boundary(_) | Expr::Decoded =>
            {}
        Expr::Element(array, index) => {
            note_read(names, operation, times, array, ledger);
            note_value(names, operation, times, index, ledger);
        }
        Expr::Cast(_, value) | Expr::Complement(value) | Expr::Negate(value) => {
            note_value(names, operation, times, value, ledger);
        }
        Expr::Two(_, left, right) => {
            note_value(names, operation, times, left, ledger);
            note_value(names, operation, times, right, ledger);
        }
        Expr::Choose(test, left, right) => {
            note_value(names, operation, times, test, ledger);
            note_value(names, operation, times, left, ledger);
            note_value(names, operation, times, right, ledger);
        }
    }
}

/// The same of one that is assigned: an element is written, and its index read.
pub(crate) fn note_place<N: Names>(
    names: &N,
    operation: usize,
    times: u64,
    place: &Expr,
    ledger: &mut Ledger,
)
    requires { HasRoom (N.tree names.now) ledger.old }
    ensures { IsAdded (N.tree names.now) operation ledger.old ledger.new times (λ a names. place_accesses a names (expr_tree place.now)) }
{
    if times == 0 {
        return;
    }
    match place {
        Expr::Named(name) => note_assigned(names, operation, times, name, ledger),
        Expr::Element(array, at) => {
            note_write(names, operation, times, array, ledger);
            note_value(names, operation, times, at, ledger);
        }
        _ => {}
    }
}
