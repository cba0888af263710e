// Modules that give up their places.
ghost use Rattle.std.specs.Prelude.{◌≡◌, ℕ, List, IfOk, map, option_map};
ghost use Rattle.verilog_text.specs.Trees as plain;
ghost use Rattle.verilog_text.specs.Trees.{vexpr_tree, vexpr_trees, action_then, action_trees, member_tree, module_tree};
ghost use Rattle.verilog_places.specs.Trees.{PlacedActions, placed_tree, placed_trees, bare, bare_parts, set_then, action_then as placed_then, placed_actions, bare_actions, placed_member, bare_member, bare_members, bare_inputs, placed_module, bare_module};
ghost use Rattle.verilog_places.specs.Clocks.{clocked, with_one_clock, HasOneClock};

use crate::expressions::PlacedExpr;
use crate::modules::{PlacedAction, PlacedInput, PlacedMember, PlacedModule};
use lisa_engine::Item;
use lisa_words::{Name, NoMemory};
use std::alloc::Global;
use verilog_text::{Action, Member, Module, VExpr};

// A boxed expression.
#[cycle(stripped)]
fn boxed(alloc: Global, e: Box<PlacedExpr>) -> Result<Box<VExpr>, NoMemory>
    ensures { IfOk result (λ x. vexpr_tree x.value ≡ bare (placed_tree e.value)) }
{
    let e = expression(alloc, Box::into_inner(e))?;
    Ok(Box::new(alloc, e)?)
}

#[cycle(stripped)]
fn expression(alloc: Global, e: PlacedExpr) -> Result<VExpr, NoMemory>
    ensures { IfOk result (λ x. vexpr_tree x ≡ bare (placed_tree e)) }
{
    match e {
        PlacedExpr::Number(_, word) => Ok(VExpr::Number(word)),
        PlacedExpr::Named(_, name) => Ok(VExpr::Named(name)),
        PlacedExpr::Bits(_, name, high, low) => Ok(VExpr::Bits(name, high, low)),
        PlacedExpr::Cell(_, name, index) => {
            let index = boxed(alloc, index)?;
            Ok(VExpr::Cell(name, index))
        }
        PlacedExpr::One(_, one, a) => {
            let a = boxed(alloc, a)?;
            Ok(VExpr::One(one, a))
        }
        PlacedExpr::Two(_, operator, a, b) => {
            let a = boxed(alloc, a)?;
            let b = boxed(alloc, b)?;
            Ok(VExpr::Two(operator, a, b))
        }
        PlacedExpr::Choose(_, test, this, other) => {
            let test = boxed(alloc, test)?;
            let this = boxed(alloc, this)?;
            let other = boxed(alloc, other)?;
            Ok(VExpr::Choose(test, this, other))
        }
        PlacedExpr::Join(_, parts) => {
            let parts = expressions(alloc, parts)?;
            Ok(VExpr::Join(parts))
        }
        PlacedExpr::Repeat(_, times, a) => {
            let a = boxed(alloc, a)?;
            Ok(VExpr::Repeat(times, a))
        }
    }
}

// The parts of a concatenation.
#[cycle(stripped)]
fn expressions(alloc: Global, parts: Vec<PlacedExpr>) -> Result<Vec<VExpr>, NoMemory>
    ensures { IfOk result (λ v. vexpr_trees v.items ≡ bare_parts (placed_trees parts.items)) }
{
    let mut all = Vec::new(alloc);
    'each: for part in parts {
        let part = expression(alloc, part)?;
        all.push(part)?;
    }
    Ok(all)
}

// The index of an assignment, where it has one.
fn index(alloc: Global, index: Option<PlacedExpr>) -> Result<Option<VExpr>, NoMemory>
    ensures { IfOk result (λ x. option_map vexpr_tree x ≡ option_map (λ e. bare (placed_tree e)) index) }
{
    match index {
        None => Ok(None),
        Some(e) => {
            let e = expression(alloc, e)?;
            Ok(Some(e))
        }
    }
}

// `name <= value;` or `name[index] <= value;`
fn set(
    alloc: Global,
    name: Name,
    at: Option<PlacedExpr>,
    value: PlacedExpr,
) -> Result<Action, NoMemory>
    ensures { IfOk result (λ a. (more : PlacedActions) → action_then a (bare_actions more) ≡ bare_actions (set_then name at (placed_tree value) more)) }
{
    let at = index(alloc, at)?;
    let value = expression(alloc, value)?;
    Ok(Action::Set(name, at, value))
}

#[cycle(acted)]
fn action(alloc: Global, action: PlacedAction) -> Result<Action, NoMemory>
    ensures { IfOk result (λ a. (more : PlacedActions) → action_then a (bare_actions more) ≡ bare_actions (placed_then action more)) }
{
    match action {
        PlacedAction::Set(name, at, value) => set(alloc, name, at, value),
        PlacedAction::If(test, this, other) => {
            let test = expression(alloc, test)?;
            let this = actions(alloc, this)?;
            let other = actions(alloc, other)?;
            Ok(Action::If(test, this, other))
        }
    }
}

#[cycle(acted)]
fn actions(alloc: Global, actions: Vec<PlacedAction>) -> Result<Vec<Action>, NoMemory>
    ensures { IfOk result (λ v. action_trees v.items ≡ bare_actions (placed_actions actions.items)) }
{
    let mut all = Vec::new(alloc);
    'each: for one in actions {
        let one = action(alloc, one)?;
        all.push(one)?;
    }
    Ok(all)
}

// An `always` block gives up the name behind its `posedge`, which is that of the module's clock.
fn member(alloc: Global, member: PlacedMember) -> Result<Member, NoMemory>
    ensures { IfOk result (λ x. (clock : List ℕ) → member_tree clock x ≡ clocked clock (bare_member (placed_member member))) }
{
    match member {
        PlacedMember::Reg(_, item) => Ok(Member::Reg(item)),
        PlacedMember::Array(_, array) => Ok(Member::Array(array)),
        PlacedMember::Wire(_, item, value) => {
            let value = expression(alloc, value)?;
            Ok(Member::Wire(item, value))
        }
        PlacedMember::Initial(settings) => Ok(Member::Initial(settings)),
        PlacedMember::Always(_, actions_at) => {
            let all = actions(alloc, actions_at)?;
            Ok(Member::Always(all))
        }
    }
}

fn members(alloc: Global, members: Vec<PlacedMember>) -> Result<Vec<Member>, NoMemory>
    ensures { IfOk result (λ v. (clock : List ℕ) → map (member_tree clock) v.items ≡ map (clocked clock) (bare_members (map placed_member members.items))) }
{
    let mut all = Vec::new(alloc);
    'each: for one in members {
        let one = member(alloc, one)?;
        all.push(one)?;
    }
    Ok(all)
}

fn inputs(alloc: Global, inputs: Vec<PlacedInput>) -> Result<Vec<Item>, NoMemory>
    ensures { IfOk result (λ v. v.items ≡ bare_inputs inputs.items) }
{
    let mut all = Vec::new(alloc);
    'each: for input in inputs {
        all.push(input.item)?;
    }
    Ok(all)
}

/// The module without its places. Names, words and numbers are moved; boxes and vectors are made anew. Recursion is as deep as the
/// module.
pub fn strip(alloc: Global, whole: PlacedModule) -> Result<Module, NoMemory>
    // Of an `always` block the name behind `posedge` is given up too: it is taken to be the clock's.
    ensures tree { IfOk result (λ m. module_tree m ≡ with_one_clock (bare_module (placed_module whole))) }
    // So nothing but the places is lost where it is.
    ensures same { HasOneClock (bare_module (placed_module whole)) → IfOk result (λ m. module_tree m ≡ bare_module (placed_module whole)) }
{
    let PlacedModule {
        name,
        clock,
        inputs: pins,
        members: all,
    } = whole;
    let pins = inputs(alloc, pins)?;
    let all = members(alloc, all)?;
    Ok(Module {
        name,
        clock,
        inputs: pins,
        members: all,
    })
}
