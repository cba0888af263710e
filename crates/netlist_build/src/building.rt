// The module of a program, and its text.
ghost use Rattle.std.specs.Prelude.{◌≡◌, ◌≤◌, ◌^◌, [], IfOk, OnOk, All, length, map};
ghost use Rattle.verilog_text.specs.Trees.{action_trees, member_tree, module_tree};
ghost use Rattle.verilog_text.specs.Clocked.{nets};
ghost use Rattle.verilog_text.specs.Printing.{module_text};
ghost use Rattle.verilog_text.specs.Faults.{VAccepts};
ghost use Rattle.step_program.specs.Programs.{program_tree};
ghost use Rattle.step_program.specs.WellFormed.{IsWellFormed};
ghost use Rattle.netlist_wires.specs.Wiring.{actions as actions_of, clock_name, ended, built};
ghost use Rattle.netlist_wires.specs.Tables.{HasDistinctNames};
ghost use Rattle.netlist_wires.specs.Costs.{wires_most};
ghost use Rattle.netlist_build.specs.Symbolic.{sym_of, first};
ghost use Rattle.netlist_build.specs.Assembled.{IsWord, HasWords, IsWrite, members_of};
ghost use Rattle.netlist_build.specs.Carried.{IsModuleOf, AreFew, IsTextOf, WiresDiffer};

use crate::assembling::{
    copied_items, first_settings, put_arrays, put_items, put_sets, put_wires, put_writes,
};
use crate::lowering::{begun, take_all};
use crate::symbols::Symbols;
use indexmap::IndexSet;
use lisa_words::{Name, NoMemory};
use netlist_wires::keys::Key;
use std::alloc::{AllocError, Global};
use step_program::StepProgram;
use verilog_text::{Action, Member, Module, print_module};

// What is done at each edge.
fn all_actions(
    alloc: Global,
    program: &StepProgram,
    symbols: &Symbols,
) -> Result<Vec<Action>, AllocError>
    requires items { All IsWord symbols.now.items.items }
    requires few { length symbols.now.items.items ≤ 8192 }
    requires writes { All IsWrite symbols.now.writes.items }
    ensures { IfOk result (λ actions. action_trees actions.items ≡ actions_of (program_tree program.now) (sym_of symbols.now)) }
{
    let mut actions = Vec::new(alloc);
    put_sets(alloc, program, &symbols.items, &mut actions)?;
    put_writes(alloc, program, &symbols.writes, &mut actions)?;
    Ok(actions)
}

// The members of the module.
fn all_members(
    alloc: Global,
    program: &StepProgram,
    keys: &[Key],
    actions: Vec<Action>,
) -> Result<Vec<Member>, AllocError>
    requires formed { IsWellFormed (program_tree program.now) }
    requires words { All (λ key. HasWords key.body) keys.now }
    ensures { IfOk result (λ members. map (member_tree clock_name) members.items ≡ members_of (program_tree program.now) keys.now (action_trees actions.items)) }
{
    let mut members = Vec::new(alloc);
    put_items(&program.items, &mut members)?;
    put_arrays(&program.arrays, &mut members)?;
    let settings = first_settings(alloc, &program.items, &program.first)?;
    members.push(Member::Initial(settings))?;
    put_wires(alloc, program, keys, &mut members)?;
    members.push(Member::Always(actions))?;
    Ok(members)
}

// A table without keys.
fn no_keys(alloc: Global) -> IndexSet<Key>
    ensures { result.keys ≡ [] }
{
    IndexSet::new(alloc)
}

// How many wires there are.
fn count(keys: &[Key]) -> usize
    ensures value { result ≡ length keys.now }
    ensures few { length keys.now ≤ 2 ^ 64 }
{
    keys.len()
}

fn assemble(alloc: Global, program: &StepProgram) -> Result<Module, NoMemory>
    requires { IsWellFormed (program_tree program.now) }
    ensures built { IfOk result (λ m. module_tree m ≡ built (first ⟦<Key as PartialEq>⟧.eq) (program_tree program.now)) }
    ensures few { OnOk result (length (ended (first ⟦<Key as PartialEq>⟧.eq) (program_tree program.now)).keys ≤ 2 ^ 64) }
{
    let mut symbols = begun(alloc, program)?;
    let mut keys = no_keys(alloc);
    take_all(program, &mut symbols, &mut keys)?;
    let _count = count(keys.as_slice());
    let actions = all_actions(alloc, program, &symbols)?;
    let members = all_members(alloc, program, keys.as_slice(), actions)?;
    let name = Name::from_bytes(alloc, b"machine")?;
    let clock = Name::from_bytes(alloc, b"edge.clock")?;
    let inputs = copied_items(alloc, &program.pins)?;
    Ok(Module {
        name,
        clock,
        inputs,
        members,
    })
}

/// The module of a program: its items, arrays and pins are the program's, and so is its state after each edge. Nothing is broken in it,
/// what is computed twice from the same values is one wire, and its text has at most so many bytes as stated. It recurses as deep as
/// the program's deepest expression.
pub fn build(alloc: Global, program: &StepProgram) -> Result<Module, NoMemory>
    requires formed { IsWellFormed (program_tree program.now) }
    requires distinct { HasDistinctNames (program_tree program.now) }
    ensures is_module { IfOk result (λ m. IsModuleOf (program_tree program.now) (module_tree m)) }
    ensures accepted { IfOk result (λ m. VAccepts (module_text (module_tree m)) (module_tree m)) }
    ensures size { IfOk result (λ m. AreFew (program_tree program.now) (length (module_text (module_tree m)))) }
    ensures wires { IfOk result (λ m. length (nets (module_tree m).members) ≤ wires_most (program_tree program.now)) }
    ensures shared { IfOk result (λ m. WiresDiffer (module_tree m)) }
{
    assemble(alloc, program)
}

/// The text of a program's module, as `print_module` writes what `build` makes.
pub fn program_text(alloc: Global, program: &StepProgram) -> Result<Vec<u8>, NoMemory>
    requires formed { IsWellFormed (program_tree program.now) }
    requires distinct { HasDistinctNames (program_tree program.now) }
    ensures { IfOk result (λ v. IsTextOf (program_tree program.now) v.items) }
{
    let whole = build(alloc, program)?;
    print_module(alloc, &whole)
}
