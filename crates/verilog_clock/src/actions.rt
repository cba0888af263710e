// Compiled actions and wires.
ghost use Rattle.std.specs.Prelude.{◌≡◌, ◌≤◌, All, IfOk, OnOk, map};
ghost use Rattle.verilog_text.specs.Trees.{action_then, action_trees, vexpr_tree, Done, Set as SetTree, Put as PutTree, member_tree};
ghost use Rattle.verilog_text.specs.Clocked.{widths_of, nets, blocks};
ghost use Rattle.verilog_text.specs.Clockable.{IsNarrow, AreNarrowActions};
ghost use Rattle.verilog_clock.specs.Named.{AreNets, IsSmallMember, MeansAssigned, MeansAct, MeansActs, MeansBlocks};
ghost use Rattle.verilog_clock.specs.Scopes.{module_in};

use crate::code::{Act, Net};
use crate::compile::{compile_alone, compile_assigned};
use crate::lengths::Length;
use crate::scope::Scope;
use lisa_engine::Item;
use lisa_words::Name;
use std::alloc::{AllocError, Global};
use verilog_text::{Action, Member, VExpr};

// An assignment to a reg.
fn compile_set(
    alloc: Global,
    scope: &Scope<'_>,
    name: &Name,
    value: &VExpr,
) -> Result<Act, AllocError>
    requires { IsNarrow (widths_of (module_in scope.now)) (vexpr_tree value.now) }
    ensures { IfOk result (MeansAct (module_in scope.now) (λ more. SetTree name.now (vexpr_tree value.now) more)) }
{
    let width = scope.width(name);
    let value = compile_assigned(alloc, scope, value, width)?;
    Ok(Act::Set(scope.target(name), Length::of(width), value))
}

// An assignment to a cell.
fn compile_put(
    alloc: Global,
    scope: &Scope<'_>,
    name: &Name,
    index: &VExpr,
    value: &VExpr,
) -> Result<Act, AllocError>
    requires index { IsNarrow (widths_of (module_in scope.now)) (vexpr_tree index.now) }
    requires value { IsNarrow (widths_of (module_in scope.now)) (vexpr_tree value.now) }
    ensures { IfOk result (MeansAct (module_in scope.now) (λ more. PutTree name.now (vexpr_tree index.now) (vexpr_tree value.now) more)) }
{
    let width = scope.cell_width(name);
    let index = compile_alone(alloc, scope, index)?;
    let value = compile_assigned(alloc, scope, value, width)?;
    Ok(Act::Put(scope.array(name), index, Length::of(width), value))
}

// An action.
#[cycle(acts)]
fn compile_action(alloc: Global, scope: &Scope<'_>, action: &Action) -> Result<Act, AllocError>
    requires { AreNarrowActions (widths_of (module_in scope.now)) (action_then action.now Done) }
    ensures { IfOk result (MeansAct (module_in scope.now) (action_then action.now)) }
{
    match action {
        Action::Set(name, None, value) => compile_set(alloc, scope, name, value),
        Action::Set(name, Some(index), value) => compile_put(alloc, scope, name, index, value),
        Action::If(test, this, other) => {
            let test = compile_alone(alloc, scope, test)?;
            let mut these = Vec::new(alloc);
            compile_actions(alloc, scope, this, &mut these)?;
            let mut others = Vec::new(alloc);
            compile_actions(alloc, scope, other, &mut others)?;
            Ok(Act::If(test, these, others))
        }
    }
}

/// Puts actions behind others.
#[cycle(acts)]
pub fn compile_actions(
    alloc: Global,
    scope: &Scope<'_>,
    actions: &[Action],
    acts: &mut Vec<Act>,
) -> Result<(), AllocError>
    requires { AreNarrowActions (widths_of (module_in scope.now)) (action_trees actions.now) }
    ensures { OnOk result (MeansActs (module_in scope.now) acts.old.items acts.new.items (action_trees actions.now)) }
{
    'each: for action in actions {
        let act = compile_action(alloc, scope, action)?;
        acts.push(act)?;
    }
    Ok(())
}

// A wire.
fn compile_net(
    alloc: Global,
    scope: &Scope<'_>,
    item: &Item,
    value: &VExpr,
) -> Result<Net, AllocError>
    requires small { item.now.width ≤ 64 }
    requires narrow { IsNarrow (widths_of (module_in scope.now)) (vexpr_tree value.now) }
    ensures length { IfOk result (λ net. net.length.bits ≡ item.now.width) }
    ensures value { IfOk result (λ net. MeansAssigned (module_in scope.now) (vexpr_tree value.now) item.now.width net.value) }
{
    let value = compile_assigned(alloc, scope, value, item.width)?;
    Ok(Net {
        length: Length::of(item.width),
        value,
    })
}

/// The wires in order.
pub fn compile_nets(
    alloc: Global,
    scope: &Scope<'_>,
    members: &[Member],
) -> Result<Vec<Net>, AllocError>
    requires { All (IsSmallMember (widths_of (module_in scope.now))) (map (member_tree (module_in scope.now).clock) members.now) }
    ensures { IfOk result (λ v. AreNets (module_in scope.now) v.items (nets (map (member_tree (module_in scope.now).clock) members.now))) }
{
    let mut nets = Vec::new(alloc);
    'each: for member in members {
        match member {
            Member::Wire(item, value) => nets.push(compile_net(alloc, scope, item, value)?)?,
            Member::Reg(_) | Member::Array(_) | Member::Initial(_) | Member::Always(_) => {}
        }
    }
    Ok(nets)
}

/// The actions of all blocks in order.
pub fn compile_blocks(
    alloc: Global,
    scope: &Scope<'_>,
    members: &[Member],
) -> Result<Vec<Act>, AllocError>
    requires { All (IsSmallMember (widths_of (module_in scope.now))) (map (member_tree (module_in scope.now).clock) members.now) }
    ensures { IfOk result (λ v. MeansBlocks (module_in scope.now) v.items (blocks (map (member_tree (module_in scope.now).clock) members.now))) }
{
    let mut acts = Vec::new(alloc);
    'each: for member in members {
        match member {
            Member::Always(actions) => compile_actions(alloc, scope, actions, &mut acts)?,
            Member::Reg(_) | Member::Array(_) | Member::Wire(_, _) | Member::Initial(_) => {}
        }
    }
    Ok(acts)
}
