//! How many statements stand in a text whose loops are unrolled, and how many nodes: statements and the nodes of their expressions.

ghost use Rattle.std.specs.Prelude.{◌≡◌, ◌-◌, ◌^◌, min};
ghost use Rattle.lisa_tree.specs.Expressions.{expr_tree};
ghost use Rattle.lisa_tree.specs.Statements.{head_tree, stmt_tree, stmt_trees};
ghost use Rattle.shape_checks.specs.Bounds.{bounds_of};
ghost use Rattle.typed_values.specs.Counts.{turns_of, statement_count, statements_count, expression_nodes, statement_nodes, statements_nodes};

use lisa_tree::{Expr, ForHead, Stmt};
use shape_checks::bounds_of;

fn turns_of(head: &ForHead) -> u64
    ensures { result ≡ turns_of (bounds_of (head_tree head.now)) }
{
    match bounds_of(head) {
        None => 0,
        Some(bounds) => bounds.turns(),
    }
}

/// How many statements a statement is once its loops are unrolled, and 2^64 - 1 where there are more. The body of a `for` counts once
/// for each turn; a loop without bound, which no accepted description has, counts as its body once more.
#[cycle(counts)]
pub fn count_statement(statement: &Stmt) -> u64
    ensures { result ≡ min (statement_count (stmt_tree statement.now)) (2 ^ 64 - 1) }
{
    match statement {
        Stmt::Block(all) => count_statements(all).saturating_add(1),
        Stmt::If(_, chosen, None) => count_statement(chosen).saturating_add(1),
        Stmt::If(_, chosen, Some(other)) => count_statement(chosen)
            .saturating_add(count_statement(other))
            .saturating_add(1),
        Stmt::While(_, body) => count_statement(body).saturating_add(1),
        Stmt::For(head, body) => turns_of(head)
            .saturating_mul(count_statement(body))
            .saturating_add(1),
        _ => 1,
    }
}

/// The same of a list of statements.
#[cycle(counts)]
pub fn count_statements(all: &[Stmt]) -> u64
    ensures { result ≡ min (statements_count (stmt_trees all.now)) (2 ^ 64 - 1) }
{
    let mut count: u64 = 0;
    for statement in all {
        count = count.saturating_add(count_statement(statement));
    }
    count
}

// How many nodes an expression has, and 2^64 - 1 where there are more.
fn expression_nodes(expression: &Expr) -> u64
    ensures { result ≡ min (expression_nodes (expr_tree expression.now)) (2 ^ 64 - 1) }
{
    match expression {
        Expr::Named(_)
        | Expr::Number(_, _)
        | Expr::Input(_)
        | Expr::Output(_)
        | Expr::Boundary(_)
        | Expr::Decoded => 1,
        Expr::Element(_, value)
        | Expr::Cast(_, value)
        | Expr::Complement(value)
        | Expr::Negate(value) => expression_nodes(value).saturating_add(1),
        Expr::Two(_, left, right) => expression_nodes(left)
            .saturating_add(expression_nodes(right))
            .saturating_add(1),
        Expr::Choose(test, left, right) => expression_nodes(test)
            .saturating_add(expression_nodes(left))
            .saturating_add(expression_nodes(right))
            .saturating_add(1),
    }
}

// How many nodes a statement has, itself and those of its expressions.
#[cycle(nodes)]
fn statement_nodes(statement: &Stmt) -> u64
    ensures { result ≡ min (statement_nodes (stmt_tree statement.now)) (2 ^ 64 - 1) }
{
    match statement {
        Stmt::Block(all) => count_nodes(all).saturating_add(1),
        Stmt::Local(_, _, Some(value)) => expression_nodes(value).saturating_add(1),
        Stmt::Assign(place, value) => expression_nodes(place)
            .saturating_add(expression_nodes(value))
            .saturating_add(1),
        Stmt::If(test, chosen, None) | Stmt::While(test, chosen) => expression_nodes(test)
            .saturating_add(statement_nodes(chosen))
            .saturating_add(1),
        Stmt::If(test, chosen, Some(other)) => expression_nodes(test)
            .saturating_add(statement_nodes(chosen))
            .saturating_add(statement_nodes(other))
            .saturating_add(1),
        Stmt::For(head, body) => turns_of(head)
            .saturating_mul(statement_nodes(body))
            .saturating_add(1),
        Stmt::Local(_, _, None)
        | Stmt::Empty
        | Stmt::Call(_)
        | Stmt::Stall(_, _)
        | Stmt::Flush(_, _)
        | Stmt::Execute(_)
        | Stmt::Shift(_) => 1,
    }
}

/// How many nodes statements have once their loops are unrolled, themselves and the nodes of their expressions, and 2^64 - 1 where there
/// are more. A name is one node, whatever it stands for, and a call is one.
#[cycle(nodes)]
pub fn count_nodes(all: &[Stmt]) -> u64
    ensures { result ≡ min (statements_nodes (stmt_trees all.now)) (2 ^ 64 - 1) }
{
    let mut count: u64 = 0;
    for statement in all {
        count = count.saturating_add(statement_nodes(statement));
    }
    count
}
