// The uses of names, in order.
ghost use Rattle.std.specs.Prelude.{◌≡◌, ◌++◌, ◌∷◌, [], OnOk, map};
ghost use Rattle.verilog_text.specs.Conditions.{expr_uses, parts_uses, action_uses, member_uses as uses_by, Start as StartUse};
ghost use Rattle.verilog_text.specs.Trees.{If as IfTree, setting_tree};
ghost use Rattle.verilog_places.specs.Trees.{bare, bare_parts, bare_actions, bare_member, placed_tree, placed_trees, set_then, action_then, placed_actions, placed_member, Done};
ghost use Rattle.verilog_checks.specs.Views.{counted_use, used_by, behind};

use crate::parts::{NameUse, Way};
use lisa_words::{Name, Word};
use std::alloc::AllocError;
use verilog_places::{PlacedAction, PlacedExpr, PlacedMember};

fn put_use<'a>(
    out: &mut Vec<NameUse<'a>>,
    before: usize,
    name: &'a Name,
    way: Way,
) -> Result<(), AllocError>
    ensures { OnOk result (map counted_use out.new.items ≡ map counted_use out.old.items ++ behind before (used_by name.now way ∷ [])) }
{
    out.push(NameUse { before, name, way })?;
    Ok(())
}

/// The uses in an expression.
#[cycle(expressions)]
pub fn put_expr<'a>(
    out: &mut Vec<NameUse<'a>>,
    before: usize,
    e: &'a PlacedExpr,
) -> Result<(), AllocError>
    ensures { OnOk result (map counted_use out.new.items ≡ map counted_use out.old.items ++ behind before (expr_uses (bare (placed_tree e.now)))) }
{
    match e {
        PlacedExpr::Number(_, _) => Ok(()),
        PlacedExpr::Named(_, name) => put_use(out, before, name, Way::Read),
        PlacedExpr::Bits(_, name, high, low) => {
            put_use(out, before, name, Way::Select(*high, *low))
        }
        PlacedExpr::Cell(_, name, index) => {
            put_use(out, before, name, Way::Index)?;
            put_expr(out, before, index)
        }
        PlacedExpr::One(_, _, a) => put_expr(out, before, a),
        PlacedExpr::Two(_, _, a, b) => {
            put_expr(out, before, a)?;
            put_expr(out, before, b)
        }
        PlacedExpr::Choose(_, test, this, other) => {
            put_expr(out, before, test)?;
            put_expr(out, before, this)?;
            put_expr(out, before, other)
        }
        PlacedExpr::Join(_, parts) => put_parts(out, before, parts),
        PlacedExpr::Repeat(_, _, a) => put_expr(out, before, a),
    }
}

#[cycle(expressions)]
fn put_parts<'a>(
    out: &mut Vec<NameUse<'a>>,
    before: usize,
    parts: &'a [PlacedExpr],
) -> Result<(), AllocError>
    ensures { OnOk result (map counted_use out.new.items ≡ map counted_use out.old.items ++ behind before (parts_uses (bare_parts (placed_trees parts.now)))) }
{
    'each: for part in parts {
        put_expr(out, before, part)?;
    }
    Ok(())
}

// What an action assigns.
fn put_set<'a>(
    out: &mut Vec<NameUse<'a>>,
    before: usize,
    name: &'a Name,
    index: &'a Option<PlacedExpr>,
    value: &'a PlacedExpr,
) -> Result<(), AllocError>
    ensures { OnOk result (map counted_use out.new.items ≡ map counted_use out.old.items ++ behind before (action_uses (bare_actions (set_then name.now index.now (placed_tree value.now) Done)))) }
{
    match index {
        None => {
            put_use(out, before, name, Way::Assign)?;
            put_expr(out, before, value)
        }
        Some(index) => {
            put_use(out, before, name, Way::Index)?;
            put_expr(out, before, index)?;
            put_expr(out, before, value)
        }
    }
}

#[cycle(actions)]
fn put_action<'a>(
    out: &mut Vec<NameUse<'a>>,
    before: usize,
    action: &'a PlacedAction,
) -> Result<(), AllocError>
    ensures { OnOk result (map counted_use out.new.items ≡ map counted_use out.old.items ++ behind before (action_uses (bare_actions (action_then action.now Done)))) }
{
    match action {
        PlacedAction::Set(name, index, value) => put_set(out, before, name, index, value),
        PlacedAction::If(test, this, other) => put_if(out, before, test, this, other),
    }
}

#[cycle(actions)]
fn put_if<'a>(
    out: &mut Vec<NameUse<'a>>,
    before: usize,
    test: &'a PlacedExpr,
    this: &'a [PlacedAction],
    other: &'a [PlacedAction],
) -> Result<(), AllocError>
    ensures { OnOk result (map counted_use out.new.items ≡ map counted_use out.old.items
        ++ behind before (action_uses (IfTree (bare (placed_tree test.now)) (bare_actions (placed_actions this.now)) (bare_actions (placed_actions other.now)) (bare_actions Done)))) }
{
    put_expr(out, before, test)?;
    put_actions(out, before, this)?;
    put_actions(out, before, other)
}

#[cycle(actions)]
fn put_actions<'a>(
    out: &mut Vec<NameUse<'a>>,
    before: usize,
    actions: &'a [PlacedAction],
) -> Result<(), AllocError>
    ensures { OnOk result (map counted_use out.new.items ≡ map counted_use out.old.items ++ behind before (action_uses (bare_actions (placed_actions actions.now)))) }
{
    'each: for action in actions {
        put_action(out, before, action)?;
    }
    Ok(())
}

fn put_settings<'a>(
    out: &mut Vec<NameUse<'a>>,
    before: usize,
    settings: &'a [(Name, Word)],
) -> Result<(), AllocError>
    ensures { OnOk result (map counted_use out.new.items ≡ map counted_use out.old.items ++ behind before (map (λ s. StartUse s.name) (map setting_tree settings.now))) }
{
    'each: for setting in settings {
        put_use(out, before, &setting.0, Way::Start)?;
    }
    Ok(())
}

/// The uses in a member.
pub fn put_member<'a>(
    out: &mut Vec<NameUse<'a>>,
    before: usize,
    member: &'a PlacedMember,
) -> Result<(), AllocError>
    ensures { OnOk result (map counted_use out.new.items ≡ map counted_use out.old.items ++ behind before (uses_by (bare_member (placed_member member.now)))) }
{
    match member {
        PlacedMember::Reg(_, _) => Ok(()),
        PlacedMember::Array(_, _) => Ok(()),
        PlacedMember::Wire(_, _, value) => put_expr(out, before, value),
        PlacedMember::Initial(settings) => put_settings(out, before, settings),
        PlacedMember::Always(edge, actions) => {
            put_use(out, before, edge, Way::Edge)?;
            put_actions(out, before, actions)
        }
    }
}
