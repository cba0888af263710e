//! The conditions of activations.

ghost use Rattle.std.specs.Prelude.{◌≡◌, ◌++◌, [], IfOk, OnOk, map, option_map, slice_get, slice_index_or};
ghost use Rattle.lisa_tree.specs.Expressions.{expr_tree};
ghost use Rattle.lisa_tree.specs.Activations.{act_tree, act_trees};
ghost use Rattle.lisa_tree.specs.Descriptions.{operation_tree, section_tree};
ghost use Rattle.lisa_tree.specs.Operations.{activation_in};
ghost use Rattle.lisa_meaning.specs.Cores.{conditions_in, item_conditions, items_conditions};
ghost use Rattle.scene_paths.specs.Conditions.{all_conditions, expressions_of, rows_of};

use lisa_tree::{Act, Expr, Operation, Section, activation};
use std::alloc::{AllocError, Global};

// Adds the conditions of an item.
#[cycle(conditions)]
fn add_conditions<'a>(act: &'a Act, row: &mut Vec<&'a Expr>) -> Result<(), AllocError>
    ensures { OnOk result (expressions_of row.new.items ≡ expressions_of row.old.items ++ item_conditions (act_tree act.now)) }
{
    match act {
        Act::Start(_) => Ok(()),
        Act::Choose(test, chosen, other) => {
            row.push(test)?;
            add_all_conditions(chosen, row)?;
            match other {
                None => Ok(()),
                Some(other) => {
                    add_all_conditions(other, row)?;
                    Ok(())
                }
            }
        }
    }
}

#[cycle(conditions)]
fn add_all_conditions<'a>(acts: &'a [Act], row: &mut Vec<&'a Expr>) -> Result<(), AllocError>
    ensures { OnOk result (expressions_of row.new.items ≡ expressions_of row.old.items ++ items_conditions (act_trees acts.now)) }
{
    for act in acts {
        add_conditions(act, row)?;
    }
    Ok(())
}

// The conditions of an operation's ACTIVATION, in source order.
fn conditions_in(alloc: Global, sections: &[Section]) -> Result<Vec<&Expr>, AllocError>
    ensures { IfOk result (λ row. expressions_of row.items ≡ conditions_in (activation_in (map section_tree sections.now))) }
{
    let mut row = Vec::new(alloc);
    if let Some(acts) = activation(sections) {
        add_all_conditions(acts, &mut row)?;
    }
    Ok(row)
}

/// For each operation the conditions of its ACTIVATION, in source order.
#[tactic(auto, using(crate::proofs::Conditioned::one_row, description_tables::proofs::Lists::regroup))]
pub(crate) fn conditions<'a>(
    alloc: Global,
    operations: &'a [Operation],
) -> Result<Vec<Vec<&'a Expr>>, AllocError>
    ensures { IfOk result (λ rows. rows_of rows.items ≡ all_conditions (map operation_tree operations.now)) }
{
    let mut rows = Vec::new(alloc);
    'each: for operation in operations {
        rows.push(conditions_in(alloc, &operation.sections)?)?;
    }
    Ok(rows)
}

// A condition by its number among those of its operation.
#[tactic(auto, using(crate::proofs::Conditioned::expression_read, crate::proofs::Conditioned::expression_past))]
fn expression_at<'a>(row: &[&'a Expr], test: usize) -> Option<&'a Expr>
    ensures { option_map (λ e. expr_tree e.now) result ≡ slice_get (expressions_of row.now) test }
{
    if test < row.len() {
        Some(row[test])
    } else {
        None
    }
}

/// A condition by its operation and its number there.
#[tactic(auto, using(crate::proofs::Conditioned::row_read, crate::proofs::Conditioned::row_past))]
pub(crate) fn condition_at<'a>(
    rows: &[Vec<&'a Expr>],
    operation: usize,
    test: usize,
) -> Option<&'a Expr>
    ensures { option_map (λ e. expr_tree e.now) result ≡ slice_get (slice_index_or (rows_of rows.now) operation []) test }
{
    if operation < rows.len() {
        expression_at(&rows[operation], test)
    } else {
        None
    }
}
