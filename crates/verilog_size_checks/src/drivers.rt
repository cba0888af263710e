// Assignments to one `reg` in two blocks.
ghost use Rattle.std.specs.Prelude.{◌≡◌, IfOk, IfErr, OnOk, None, [], map};
ghost use Rattle.name_tables.specs.Keys.{insert_key, insert_all};
ghost use Rattle.verilog_text.specs.Clocked.{blocks};
ghost use Rattle.verilog_text.specs.Conditions.{targets};
ghost use Rattle.verilog_places.specs.Trees.{action_then, Done, placed_actions, bare_actions, placed_member, bare_members};
ghost use Rattle.verilog_size_checks.specs.Sought.{first_of, again, driven_again, TellsDriver};

use lisa_words::Name;
use name_tables::NameSet;
use std::alloc::{AllocError, Global};
use verilog_places::{PlacedAction, PlacedMember};
use verilog_text::VerilogFault;

// Checks that earlier blocks don't assign a name.
fn check_name(earlier: &NameSet, name: &Name) -> Result<(), VerilogFault>
    ensures right { IfOk result (λ _. again earlier.now.keys.items name.now ≡ None) }
    ensures wrong { IfErr result (TellsDriver (again earlier.now.keys.items name.now)) }
{
    if earlier.contains(name) {
        return Err(VerilogFault::TwoDrivers {
            name: name.clone()?,
        });
    }
    Ok(())
}

// Checks what an action assigns.
#[cycle(checks)]
#[tactic(auto, using(crate::proofs::FirstLaws::first_append))]
fn check_action(earlier: &NameSet, action: &PlacedAction) -> Result<(), VerilogFault>
    ensures right { IfOk result (λ _. first_of (again earlier.now.keys.items) (targets (bare_actions (action_then action.now Done))) ≡ None) }
    ensures wrong { IfErr result (TellsDriver (first_of (again earlier.now.keys.items) (targets (bare_actions (action_then action.now Done))))) }
{
    match action {
        PlacedAction::Set(name, None, _) => {
            check_name(earlier, name)?;
            Ok(())
        }
        PlacedAction::Set(name, Some(_), _) => {
            check_name(earlier, name)?;
            Ok(())
        }
        PlacedAction::If(_, this, other) => {
            check_actions(earlier, this)?;
            check_actions(earlier, other)?;
            Ok(())
        }
    }
}

// Checks what actions assign.
#[cycle(checks)]
#[tactic(auto, using(crate::proofs::FirstLaws::first_append))]
fn check_actions(earlier: &NameSet, actions: &[PlacedAction]) -> Result<(), VerilogFault>
    ensures right { IfOk result (λ _. first_of (again earlier.now.keys.items) (targets (bare_actions (placed_actions actions.now))) ≡ None) }
    ensures wrong { IfErr result (TellsDriver (first_of (again earlier.now.keys.items) (targets (bare_actions (placed_actions actions.now))))) }
{
    'each: for action in actions {
        check_action(earlier, action)?;
    }
    Ok(())
}

// Notes a name.
fn note_name(names: &mut NameSet, name: &Name) -> Result<(), AllocError>
    ensures { OnOk result (names.new.keys.items ≡ insert_key names.old.keys.items name.now) }
{
    names.insert(name)?;
    Ok(())
}

// Notes what an action assigns.
#[cycle(notes)]
#[tactic(auto, using(crate::proofs::DriverLaws::insert_append))]
fn note_action(names: &mut NameSet, action: &PlacedAction) -> Result<(), AllocError>
    ensures { OnOk result (names.new.keys.items ≡ insert_all names.old.keys.items (targets (bare_actions (action_then action.now Done)))) }
{
    match action {
        PlacedAction::Set(name, None, _) => {
            note_name(names, name)?;
            Ok(())
        }
        PlacedAction::Set(name, Some(_), _) => {
            note_name(names, name)?;
            Ok(())
        }
        PlacedAction::If(_, this, other) => {
            note_actions(names, this)?;
            note_actions(names, other)?;
            Ok(())
        }
    }
}

// Notes what actions assign.
#[cycle(notes)]
#[tactic(auto, using(crate::proofs::DriverLaws::insert_append))]
fn note_actions(names: &mut NameSet, actions: &[PlacedAction]) -> Result<(), AllocError>
    ensures { OnOk result (names.new.keys.items ≡ insert_all names.old.keys.items (targets (bare_actions (placed_actions actions.now)))) }
{
    'each: for action in actions {
        note_action(names, action)?;
    }
    Ok(())
}

// Checks a block, and notes what it assigns.
fn check_block(names: &mut NameSet, block: &[PlacedAction]) -> Result<(), VerilogFault>
    ensures right { IfOk result (λ _. first_of (again names.old.keys.items) (targets (bare_actions (placed_actions block.now))) ≡ None) }
    ensures noted { OnOk result (names.new.keys.items ≡ insert_all names.old.keys.items (targets (bare_actions (placed_actions block.now)))) }
    ensures wrong { IfErr result (TellsDriver (first_of (again names.old.keys.items) (targets (bare_actions (placed_actions block.now))))) }
{
    check_actions(names, block)?;
    note_actions(names, block)?;
    Ok(())
}

/// Checks that no two blocks assign one name.
pub fn check_drivers(alloc: Global, members: &[PlacedMember]) -> Result<(), VerilogFault>
    ensures right { IfOk result (λ _. driven_again [] (blocks (bare_members (map placed_member members.now))) ≡ None) }
    ensures wrong { IfErr result (TellsDriver (driven_again [] (blocks (bare_members (map placed_member members.now))))) }
{
    let mut names = NameSet::new(alloc);
    'each: for member in members {
        match member {
            PlacedMember::Always(_, block) => check_block(&mut names, block)?,
            PlacedMember::Reg(_, _)
            | PlacedMember::Array(_, _)
            | PlacedMember::Wire(_, _, _)
            | PlacedMember::Initial(_) => {}
        }
    }
    Ok(())
}
