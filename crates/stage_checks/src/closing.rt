//! Where `execute` and `shift` stand.
#![tactic(auto, using(crate::proofs::Items::one_statement, crate::proofs::Items::one_operation, lisa_tree::proofs::Lists::one_section))]

ghost use Rattle.std.specs.Prelude.{◌≡◌};
ghost use Rattle.lisa_tree.specs.Statements.{stmt_tree, stmt_trees};
ghost use Rattle.lisa_tree.specs.Descriptions.{section_tree, operation_tree, description_tree};
ghost use Rattle.stage_checks.specs.Closing.{is_close, holds, any_holds, ends_well, section_closes, operation_closes, closes_well};

use crate::look_ups::is_main;
use lisa_tree::{Description, Operation, Section, Stmt};

// Whether a statement is an `execute` or a `shift`.
fn is_close(statement: &Stmt) -> bool
    ensures { result ≡ is_close (stmt_tree statement.now) }
{
    matches!(statement, Stmt::Execute(_) | Stmt::Shift(_))
}

// Whether a statement is one or has one in it.
#[cycle(holds)]
fn holds(statement: &Stmt) -> bool
    ensures { result ≡ holds (stmt_tree statement.now) }
{
    match statement {
        Stmt::Block(all) => any_holds(all),
        Stmt::If(_, chosen, None) => holds(chosen),
        Stmt::If(_, chosen, Some(other)) => holds(chosen) || holds(other),
        Stmt::While(_, body) | Stmt::For(_, body) => holds(body),
        Stmt::Execute(_) | Stmt::Shift(_) => true,
        _ => false,
    }
}

#[cycle(holds)]
fn any_holds(all: &[Stmt]) -> bool
    ensures { result ≡ any_holds (stmt_trees all.now) }
{
    for statement in all {
        if holds(statement) {
            return true;
        }
    }
    false
}

// Whether only such stand behind the first of them, and none stands inside a statement before it.
fn ends_well(all: &[Stmt]) -> bool
    ensures { result ≡ ends_well (stmt_trees all.now) }
{
    let mut closing = false;
    for statement in all {
        let closes = is_close(statement);
        if !closes && (closing || holds(statement)) {
            return false;
        }
        closing = closes;
    }
    true
}

fn section_closes(in_main: bool, section: &Section) -> bool
    ensures { result ≡ section_closes in_main (section_tree section.now) }
{
    match section {
        Section::Behavior(all) => {
            if in_main {
                ends_well(all)
            } else {
                !any_holds(all)
            }
        }
        _ => true,
    }
}

fn operation_closes(operation: &Operation) -> bool
    ensures { result ≡ operation_closes (operation_tree operation.now) }
{
    let in_main = is_main(&operation.name);
    for section in &operation.sections {
        if !section_closes(in_main, section) {
            return false;
        }
    }
    true
}

/// Whether each `execute` and `shift` stands last in the outermost list of statements of `main`.
pub(crate) fn closes_well(description: &Description) -> bool
    ensures { result ≡ closes_well (description_tree description.now) }
{
    for operation in &description.operations {
        if !operation_closes(operation) {
            return false;
        }
    }
    true
}
