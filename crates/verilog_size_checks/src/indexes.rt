// The lengths of indexes.
ghost use Rattle.std.specs.Prelude.{ℕ, ◌≡◌, ◌<◌, IfOk, IfErr, IfSome, None, map, flat_map};
ghost use Rattle.verilog_text.specs.Conditions.{expr_indexes, parts_indexes, action_indexes, member_indexes};
ghost use Rattle.verilog_places.specs.Trees.{placed_tree, placed_trees, bare, bare_parts, action_then, Done, placed_actions, bare_actions, placed_member, bare_member, bare_members, placed_module};
ghost use Rattle.verilog_size_checks.specs.Sought.{first_of, misfit, index_fault, TellsIndex, capped};
ghost use Rattle.verilog_size_checks.specs.Scopes.{module_in};
ghost use Rattle.verilog_size_checks.specs.Answers.{IndexesHold, IsFirstBrokenSize};

use crate::scope::Scope;
use crate::widths::own_width;
use lisa_words::Name;
use verilog_places::{PlacedAction, PlacedExpr, PlacedMember};
use verilog_text::VerilogFault;

// Compares the length of an index with the one that its array needs.
fn check_length(name: &Name, width: u32, needed: Option<u32>) -> Result<(), VerilogFault>
    requires { IfSome needed (λ k. k < 32) }
    ensures right { (x : ℕ) → width ≡ capped x → IfOk result (λ _. misfit name.now x needed ≡ None) }
    ensures wrong { (x : ℕ) → width ≡ capped x → IfErr result (TellsIndex (misfit name.now x needed)) }
{
    let Some(needed) = needed else {
        return Ok(());
    };
    if width == needed {
        return Ok(());
    }
    Err(VerilogFault::IndexWidth {
        name: name.clone()?,
        width,
        needed,
    })
}

// Checks the length of an index, and nothing inside it.
fn check_index(scope: &Scope<'_>, name: &Name, index: &PlacedExpr) -> Result<(), VerilogFault>
    ensures right { IfOk result (λ _. index_fault (module_in scope.now) (name.now, bare (placed_tree index.now)) ≡ None) }
    ensures wrong { IfErr result (TellsIndex (index_fault (module_in scope.now) (name.now, bare (placed_tree index.now)))) }
{
    check_length(name, own_width(scope, index), scope.needed(name))
}

// Checks the indexes in an expression.
#[cycle(indexes)]
#[tactic(auto, using(crate::proofs::FirstLaws::first_append))]
fn check_expr(scope: &Scope<'_>, e: &PlacedExpr) -> Result<(), VerilogFault>
    ensures right { IfOk result (λ _. first_of (index_fault (module_in scope.now)) (expr_indexes (bare (placed_tree e.now))) ≡ None) }
    ensures wrong { IfErr result (TellsIndex (first_of (index_fault (module_in scope.now)) (expr_indexes (bare (placed_tree e.now))))) }
{
    match e {
        PlacedExpr::Number(_, _) | PlacedExpr::Named(_, _) | PlacedExpr::Bits(_, _, _, _) => Ok(()),
        PlacedExpr::Cell(_, name, index) => {
            check_index(scope, name, index)?;
            check_expr(scope, index)?;
            Ok(())
        }
        PlacedExpr::One(_, _, a) => {
            check_expr(scope, a)?;
            Ok(())
        }
        PlacedExpr::Two(_, _, a, b) => {
            check_expr(scope, a)?;
            check_expr(scope, b)?;
            Ok(())
        }
        PlacedExpr::Choose(_, test, this, other) => {
            check_expr(scope, test)?;
            check_expr(scope, this)?;
            check_expr(scope, other)?;
            Ok(())
        }
        PlacedExpr::Join(_, parts) => {
            check_parts(scope, parts)?;
            Ok(())
        }
        PlacedExpr::Repeat(_, _, a) => {
            check_expr(scope, a)?;
            Ok(())
        }
    }
}

// Checks the indexes in parts.
#[cycle(indexes)]
#[tactic(auto, using(crate::proofs::FirstLaws::first_append))]
fn check_parts(scope: &Scope<'_>, parts: &[PlacedExpr]) -> Result<(), VerilogFault>
    ensures right { IfOk result (λ _. first_of (index_fault (module_in scope.now)) (parts_indexes (bare_parts (placed_trees parts.now))) ≡ None) }
    ensures wrong { IfErr result (TellsIndex (first_of (index_fault (module_in scope.now)) (parts_indexes (bare_parts (placed_trees parts.now))))) }
{
    'each: for part in parts {
        check_expr(scope, part)?;
    }
    Ok(())
}

// Checks the indexes in an action.
#[cycle(acts)]
#[tactic(auto, using(crate::proofs::FirstLaws::first_append))]
fn check_action(scope: &Scope<'_>, action: &PlacedAction) -> Result<(), VerilogFault>
    ensures right { IfOk result (λ _. first_of (index_fault (module_in scope.now)) (action_indexes (bare_actions (action_then action.now Done))) ≡ None) }
    ensures wrong { IfErr result (TellsIndex (first_of (index_fault (module_in scope.now)) (action_indexes (bare_actions (action_then action.now Done))))) }
{
    match action {
        PlacedAction::Set(name, target, value) => match target {
            None => {
                check_expr(scope, value)?;
                Ok(())
            }
            Some(index) => {
                check_index(scope, name, index)?;
                check_expr(scope, index)?;
                check_expr(scope, value)?;
                Ok(())
            }
        },
        PlacedAction::If(test, this, other) => {
            check_expr(scope, test)?;
            check_actions(scope, this)?;
            check_actions(scope, other)?;
            Ok(())
        }
    }
}

// Checks the indexes in actions.
#[cycle(acts)]
#[tactic(auto, using(crate::proofs::FirstLaws::first_append))]
fn check_actions(scope: &Scope<'_>, actions: &[PlacedAction]) -> Result<(), VerilogFault>
    ensures right { IfOk result (λ _. first_of (index_fault (module_in scope.now)) (action_indexes (bare_actions (placed_actions actions.now))) ≡ None) }
    ensures wrong { IfErr result (TellsIndex (first_of (index_fault (module_in scope.now)) (action_indexes (bare_actions (placed_actions actions.now))))) }
{
    'each: for action in actions {
        check_action(scope, action)?;
    }
    Ok(())
}

// Checks the indexes in a member.
fn check_member(scope: &Scope<'_>, member: &PlacedMember) -> Result<(), VerilogFault>
    ensures right { IfOk result (λ _. first_of (index_fault (module_in scope.now)) (member_indexes (bare_member (placed_member member.now))) ≡ None) }
    ensures wrong { IfErr result (TellsIndex (first_of (index_fault (module_in scope.now)) (member_indexes (bare_member (placed_member member.now))))) }
{
    match member {
        PlacedMember::Reg(_, _) | PlacedMember::Array(_, _) | PlacedMember::Initial(_) => {}
        PlacedMember::Wire(_, _, value) => check_expr(scope, value)?,
        PlacedMember::Always(_, actions) => check_actions(scope, actions)?,
    }
    Ok(())
}

// Checks the indexes in members.
#[tactic(auto, using(crate::proofs::FirstLaws::first_append))]
fn check_members(scope: &Scope<'_>, members: &[PlacedMember]) -> Result<(), VerilogFault>
    ensures right { IfOk result (λ _. first_of (index_fault (module_in scope.now)) (flat_map member_indexes (bare_members (map placed_member members.now))) ≡ None) }
    ensures wrong { IfErr result (TellsIndex (first_of (index_fault (module_in scope.now)) (flat_map member_indexes (bare_members (map placed_member members.now))))) }
{
    'each: for member in members {
        check_member(scope, member)?;
    }
    Ok(())
}

/// Checks the lengths of all indexes of a module.
pub fn check_indexes(scope: &Scope<'_>) -> Result<(), VerilogFault>
    ensures right { IfOk result (λ _. IndexesHold (placed_module scope.now.tree.now)) }
    ensures wrong { IfErr result (IsFirstBrokenSize (placed_module scope.now.tree.now)) }
{
    check_members(scope, &scope.tree.members)?;
    Ok(())
}
