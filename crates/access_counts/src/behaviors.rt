//! Statements of behaviours.

ghost use Rattle.std.specs.Prelude.{◌≡◌, ◌*◌};
ghost use Rattle.lisa_tree.specs.Statements.{head_tree, stmt_tree, stmt_trees};
ghost use Rattle.access_counts.specs.Accesses.{turns_of, statement_accesses, statements_accesses};
ghost use Rattle.access_counts.specs.Ledgers.{HasRoom, IsAdded, capped};

use crate::expressions::{note_place, note_value};
use crate::ledger::{Ledger, note_call};
use lisa_tree::{ForHead, Names, Stmt};
use shape_checks::bounds_of;

// How many turns so many runs of a loop make.
fn all_turns(times: u64, head: &ForHead) -> u64
    ensures { result ≡ capped (times * turns_of (head_tree head.now)) }
{
    match bounds_of(head) {
        None => 0,
        Some(bounds) => times.saturating_mul(bounds.turns()),
    }
}

// Notes what a statement does that is done so many times.
#[cycle(statements)]
fn note_statement<N: Names>(
    names: &N,
    operation: usize,
    times: u64,
    statement: &Stmt,
    ledger: &mut Ledger,
)
    requires { HasRoom (N.tree names.now) ledger.old }
    ensures { IsAdded (N.tree names.now) operation ledger.old ledger.new times (λ a names. statement_accesses a names (stmt_tree statement.now)) }
{
    if times == 0 {
        return;
    }
    match statement {
        Stmt::Block(all) => note_behavior(names, operation, times, all, ledger),
        Stmt::Local(_, _, Some(value)) => note_value(names, operation, times, value, ledger),
        Stmt::Assign(place, value) => {
            note_place(names, operation, times, place, ledger);
            note_value(names, operation, times, value, ledger);
        }
        Stmt::If(test, chosen, other) => {
            note_value(names, operation, times, test, ledger);
            note_statement(names, operation, times, chosen, ledger);
            match other {
                None => {}
                Some(other) => note_statement(names, operation, times, other, ledger),
            }
        }
        Stmt::While(test, body) => {
            note_value(names, operation, times, test, ledger);
            note_statement(names, operation, times, body, ledger);
        }
        Stmt::For(head, body) => {
            let turns = all_turns(times, head);
            note_statement(names, operation, turns, body, ledger);
        }
        Stmt::Call(name) => note_call(names, operation, times, name, ledger),
        Stmt::Local(_, _, None)
        | Stmt::Empty
        | Stmt::Stall(_, _)
        | Stmt::Flush(_, _)
        | Stmt::Execute(_)
        | Stmt::Shift(_) => {}
    }
}

/// Notes what the statements of an operation's behaviour do that runs so many times.
#[cycle(statements)]
pub(crate) fn note_behavior<N: Names>(
    names: &N,
    operation: usize,
    times: u64,
    all: &[Stmt],
    ledger: &mut Ledger,
)
    requires { HasRoom (N.tree names.now) ledger.old }
    ensures { IsAdded (N.tree names.now) operation ledger.old ledger.new times (λ a names. statements_accesses a names (stmt_trees all.now)) }
{
    if times == 0 {
        return;
    }
    for statement in all {
        note_statement(names, operation, times, statement, ledger);
    }
}
