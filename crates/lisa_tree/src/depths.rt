//! How deep a description nests.
ghost use Rattle.std.specs.Prelude.{◌≡◌, ◌-◌, ◌^◌, min};
ghost use Rattle.lisa_tree.specs.Expressions.{expr_tree, expr_depth};
ghost use Rattle.lisa_tree.specs.Statements.{head_tree, head_depth, stmt_tree, stmt_depth, stmt_trees, stmts_depth};
ghost use Rattle.lisa_tree.specs.Activations.{act_tree, act_depth, act_trees, acts_depth};
ghost use Rattle.lisa_tree.specs.Descriptions.{section_tree, section_depth, operation_tree, sections_depth, description_tree, description_depth};

use crate::descriptions::{Act, CodingPart, Description, Operation, Section};
use crate::expressions::Expr;
use crate::statements::{ForHead, Stmt};

/// The depth of a description, that of its deepest expression, statement or item of an activation: 0 where it has none,
/// and 2^32 - 1 where it is greater than that.
pub fn depth(d: &Description) -> u32
    ensures { result ≡ min (description_depth (description_tree d.now)) (2 ^ 32 - 1) }
{
    let mut deepest: u32 = 0;
    for operation in &d.operations {
        deepest = deepest.max(operation_depth(operation));
    }
    deepest
}

fn operation_depth(o: &Operation) -> u32
    ensures { result ≡ min (sections_depth (operation_tree o.now).sections) (2 ^ 32 - 1) }
{
    let mut deepest: u32 = 0;
    for section in &o.sections {
        deepest = deepest.max(section_depth(section));
    }
    deepest
}

fn section_depth(section: &Section) -> u32
    ensures { result ≡ min (section_depth (section_tree section.now)) (2 ^ 32 - 1) }
{
    match section {
        Section::Coding(CodingPart::Root(place, _)) => expr_depth(place),
        Section::Behavior(statements) => stmts_depth(statements),
        Section::Expression(e) => expr_depth(e),
        Section::Activation(acts) => acts_depth(acts),
        _ => 0,
    }
}

fn expr_depth(e: &Expr) -> u32
    ensures { result ≡ min (expr_depth (expr_tree e.now)) (2 ^ 32 - 1) }
{
    match e {
        Expr::Element(_, index) => expr_depth(index).saturating_add(1),
        Expr::Cast(_, a) | Expr::Complement(a) | Expr::Negate(a) => {
            expr_depth(a).saturating_add(1)
        }
        Expr::Two(_, a, b) => expr_depth(a).max(expr_depth(b)).saturating_add(1),
        Expr::Choose(c, a, b) => expr_depth(c)
            .max(expr_depth(a))
            .max(expr_depth(b))
            .saturating_add(1),
        _ => 1,
    }
}

// The greatest depth of the expressions of a loop's head.
fn head_depth(head: &ForHead) -> u32
    ensures { result ≡ min (head_depth (head_tree head.now)) (2 ^ 32 - 1) }
{
    expr_depth(&head.first)
        .max(expr_depth(&head.test))
        .max(expr_depth(&head.step))
}

#[cycle(stmt_depths)]
fn stmt_depth(s: &Stmt) -> u32
    ensures { result ≡ min (stmt_depth (stmt_tree s.now)) (2 ^ 32 - 1) }
{
    match s {
        Stmt::Block(all) => stmts_depth(all).saturating_add(1),
        Stmt::Local(_, _, Some(value)) => expr_depth(value).saturating_add(1),
        Stmt::Assign(place, value) => expr_depth(place).max(expr_depth(value)).saturating_add(1),
        Stmt::If(test, chosen, None) => expr_depth(test).max(stmt_depth(chosen)).saturating_add(1),
        Stmt::If(test, chosen, Some(other)) => expr_depth(test)
            .max(stmt_depth(chosen))
            .max(stmt_depth(other))
            .saturating_add(1),
        Stmt::While(test, body) => expr_depth(test).max(stmt_depth(body)).saturating_add(1),
        Stmt::For(head, body) => head_depth(head).max(stmt_depth(body)).saturating_add(1),
        _ => 1,
    }
}

#[cycle(stmt_depths)]
fn stmts_depth(all: &[Stmt]) -> u32
    ensures { result ≡ min (stmts_depth (stmt_trees all.now)) (2 ^ 32 - 1) }
{
    let mut deepest: u32 = 0;
    for s in all {
        deepest = deepest.max(stmt_depth(s));
    }
    deepest
}

#[cycle(act_depths)]
fn act_depth(a: &Act) -> u32
    ensures { result ≡ min (act_depth (act_tree a.now)) (2 ^ 32 - 1) }
{
    match a {
        Act::Start(_) => 1,
        Act::Choose(test, chosen, other) => {
            let deepest = expr_depth(test).max(acts_depth(chosen));
            match other {
                None => deepest.saturating_add(1),
                Some(other) => deepest.max(acts_depth(other)).saturating_add(1),
            }
        }
    }
}

#[cycle(act_depths)]
fn acts_depth(all: &[Act]) -> u32
    ensures { result ≡ min (acts_depth (act_trees all.now)) (2 ^ 32 - 1) }
{
    let mut deepest: u32 = 0;
    for a in all {
        deepest = deepest.max(act_depth(a));
    }
    deepest
}
