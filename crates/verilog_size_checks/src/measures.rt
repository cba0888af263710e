// The first range or expression that is too wide.
ghost use Rattle.std.specs.Prelude.{ℕ, ◌≡◌, IfOk, IfErr, None, Some, map};
ghost use Rattle.verilog_text.specs.Values.{v_width, parts_width};
ghost use Rattle.verilog_text.specs.WidePlaces.{where_wide as wide_there, ◌or_else◌};
ghost use Rattle.verilog_places.specs.Trees.{placed_tree, placed_trees, bare, bare_parts, action_then, Done, placed_actions, placed_member, placed_module};
ghost use Rattle.verilog_places.specs.WidePlaces.{wide_inside, wide_parts, wide_expr as wide_in_expr, wide_actions as wide_in_actions, wide_inputs as wide_in_inputs, wide_member as wide_in_member, wide_members as wide_in_members, first_wide as first_wide_place};
ghost use Rattle.verilog_size_checks.specs.Sought.{capped, TellsPlace};
ghost use Rattle.verilog_size_checks.specs.Scopes.{widths_in};

use crate::lengths::{larger, one_width, repeated, selected, together, two_width};
use crate::scope::Scope;
use verilog_places::{PlacedAction, PlacedExpr, PlacedInput, PlacedMember};
use verilog_text::VerilogFault;

// The length of an expression, and where something in it is too wide first.
#[derive(Clone, Copy)]
struct Measured {
    width: u32,
    wide: Option<u32>,
}

// The first of two places, the first one before the second.
fn first(a: Option<u32>, b: Option<u32>) -> Option<u32>
    ensures { result ≡ (a or_else b) }
{
    match a {
        Some(at) => Some(at),
        None => b,
    }
}

// The place, if the width there is too great.
fn where_wide(width: u32, at: u32) -> Option<u32>
    ensures own { result ≡ wide_there width at }
    ensures told { (x : ℕ) → width ≡ capped x → result ≡ wide_there x at }
{
    if width > 64 { Some(at) } else { None }
}

// An expression with what is in it.
#[cycle(measures)]
fn measure(scope: &Scope<'_>, e: &PlacedExpr) -> Measured
    ensures width { result.width ≡ capped (v_width (widths_in scope.now) (bare (placed_tree e.now))) }
    ensures wide { result.wide ≡ wide_in_expr (widths_in scope.now) (placed_tree e.now) }
{
    let inside = inside(scope, e);
    Measured {
        width: inside.width,
        wide: first(where_wide(inside.width, e.place()), inside.wide),
    }
}

// What is in an expression, and its length.
#[cycle(measures)]
#[tactic(auto, using(crate::proofs::LengthLaws::capped_small))]
fn inside(scope: &Scope<'_>, e: &PlacedExpr) -> Measured
    ensures width { result.width ≡ capped (v_width (widths_in scope.now) (bare (placed_tree e.now))) }
    ensures wide { result.wide ≡ wide_inside (widths_in scope.now) (placed_tree e.now) }
{
    match e {
        PlacedExpr::Number(_, word) => Measured {
            width: word.width,
            wide: None,
        },
        PlacedExpr::Named(_, name) => Measured {
            width: scope.width(name),
            wide: None,
        },
        PlacedExpr::Bits(_, _, high, low) => Measured {
            width: selected(*high, *low),
            wide: None,
        },
        PlacedExpr::Cell(_, name, index) => Measured {
            width: scope.cell_width(name),
            wide: measure(scope, index).wide,
        },
        PlacedExpr::One(_, one, a) => {
            let a = measure(scope, a);
            Measured {
                width: one_width(*one, a.width),
                wide: a.wide,
            }
        }
        PlacedExpr::Two(_, operator, a, b) => {
            let a = measure(scope, a);
            let b = measure(scope, b);
            Measured {
                width: two_width(*operator, a.width, b.width),
                wide: first(a.wide, b.wide),
            }
        }
        PlacedExpr::Choose(_, test, this, other) => {
            let test = measure(scope, test);
            let this = measure(scope, this);
            let other = measure(scope, other);
            Measured {
                width: larger(this.width, other.width),
                wide: first(test.wide, first(this.wide, other.wide)),
            }
        }
        PlacedExpr::Join(_, parts) => measure_parts(scope, parts),
        PlacedExpr::Repeat(_, times, a) => {
            let a = measure(scope, a);
            Measured {
                width: repeated(*times, a.width),
                wide: a.wide,
            }
        }
    }
}

// Parts together.
#[cycle(measures)]
fn measure_parts(scope: &Scope<'_>, parts: &[PlacedExpr]) -> Measured
    ensures width { result.width ≡ capped (parts_width (widths_in scope.now) (bare_parts (placed_trees parts.now))) }
    ensures wide { result.wide ≡ wide_parts (widths_in scope.now) (placed_trees parts.now) }
{
    let mut all = Measured {
        width: 0,
        wide: None,
    };
    'each: for part in parts {
        let part = measure(scope, part);
        all = Measured {
            width: together(all.width, part.width),
            wide: first(all.wide, part.wide),
        };
    }
    all
}

// In an expression.
fn wide_expr(scope: &Scope<'_>, e: &PlacedExpr) -> Option<u32>
    ensures { result ≡ wide_in_expr (widths_in scope.now) (placed_tree e.now) }
{
    measure(scope, e).wide
}

// In an action.
#[cycle(acts)]
fn wide_action(scope: &Scope<'_>, action: &PlacedAction) -> Option<u32>
    ensures { result ≡ wide_in_actions (widths_in scope.now) (action_then action.now Done) }
{
    match action {
        PlacedAction::Set(_, None, value) => wide_expr(scope, value),
        PlacedAction::Set(_, Some(index), value) => {
            first(wide_expr(scope, index), wide_expr(scope, value))
        }
        PlacedAction::If(test, this, other) => {
            let branches = first(wide_actions(scope, this), wide_actions(scope, other));
            first(wide_expr(scope, test), branches)
        }
    }
}

// In actions.
#[cycle(acts)]
fn wide_actions(scope: &Scope<'_>, actions: &[PlacedAction]) -> Option<u32>
    ensures { result ≡ wide_in_actions (widths_in scope.now) (placed_actions actions.now) }
{
    'each: for action in actions {
        let found = wide_action(scope, action);
        if found.is_some() {
            return found;
        }
    }
    None
}

// In the ranges of inputs.
fn wide_inputs(inputs: &[PlacedInput]) -> Option<u32>
    ensures { result ≡ wide_in_inputs inputs.now }
{
    'each: for input in inputs {
        let found = where_wide(input.item.width, input.range);
        if found.is_some() {
            return found;
        }
    }
    None
}

// In a member.
fn wide_member(scope: &Scope<'_>, member: &PlacedMember) -> Option<u32>
    ensures { result ≡ wide_in_member (widths_in scope.now) (placed_member member.now) }
{
    match member {
        PlacedMember::Reg(range, item) => where_wide(item.width, *range),
        PlacedMember::Array(range, array) => where_wide(array.width, *range),
        PlacedMember::Wire(range, item, value) => {
            first(where_wide(item.width, *range), wide_expr(scope, value))
        }
        PlacedMember::Initial(_) => None,
        PlacedMember::Always(_, actions) => wide_actions(scope, actions),
    }
}

// In members.
fn wide_members(scope: &Scope<'_>, members: &[PlacedMember]) -> Option<u32>
    ensures { result ≡ wide_in_members (widths_in scope.now) (map placed_member members.now) }
{
    'each: for member in members {
        let found = wide_member(scope, member);
        if found.is_some() {
            return found;
        }
    }
    None
}

// In a module.
fn first_wide(scope: &Scope<'_>) -> Option<u32>
    ensures { result ≡ first_wide_place (placed_module scope.now.tree.now) }
{
    let found = wide_inputs(&scope.tree.inputs);
    first(found, wide_members(scope, &scope.tree.members))
}

/// Checks that no range and no expression of a module is too wide.
pub fn check_widths(scope: &Scope<'_>) -> Result<(), VerilogFault>
    ensures right { IfOk result (λ _. first_wide_place (placed_module scope.now.tree.now) ≡ None) }
    ensures wrong { IfErr result (TellsPlace (first_wide_place (placed_module scope.now.tree.now))) }
{
    match first_wide(scope) {
        None => Ok(()),
        Some(at) => Err(VerilogFault::TooWide { at }),
    }
}
