// The modules of programs, and their texts.
ghost use Rattle.std.specs.Prelude.{◌≡◌, ◌<◌, ◌^◌, ◌↔◌, IfOk, IfErr, IfSome, IsSome, IsTrue};
ghost use Rattle.verilog_text.specs.Trees.{module_tree};
ghost use Rattle.verilog_text.specs.Clockable.{IsClockable};
ghost use Rattle.verilog_text.specs.declared.faults.VerilogFault.TheVariants.{NoMemory as OutOfMemory};
ghost use Rattle.step_program.specs.Programs.{program_tree};
ghost use Rattle.netlist_rules.specs.Sizes.{module_most};
ghost use Rattle.netlist_build.specs.Carried.{IsModuleOf, IsTextOf};
ghost use Rattle.netlist_samples.specs.Buildable.{IsBuildable};

use crate::naming::named_apart;
use lisa_words::NoMemory;
use netlist_build::{build, program_text};
use std::alloc::Global;
use step_program::{StepProgram, well_formed};
use verilog_reader::read_module;
use verilog_text::{Module, VerilogFault};

/// Whether a program is well formed and its names are distinct, so that it has a module.
pub fn is_buildable(alloc: Global, program: &StepProgram) -> Result<bool, NoMemory>
    ensures { IfOk result (λ buildable. IsTrue buildable ↔ IsBuildable (program_tree program.now)) }
{
    let apart = named_apart(alloc, program)?;
    Ok(apart && well_formed(program))
}

/// The module of a program: one that is well formed and whose names are distinct has one, and no other does.
pub fn clocked(alloc: Global, program: &StepProgram) -> Result<Option<Module>, NoMemory>
    ensures made { IfOk result (λ found. IsSome found ↔ IsBuildable (program_tree program.now)) }
    ensures is_module { IfOk result (λ found. IfSome found (λ m. IsModuleOf (program_tree program.now) (module_tree m))) }
    ensures clockable { IfOk result (λ found. IfSome found (λ m. IsClockable (module_tree m))) }
{
    if !is_buildable(alloc, program)? {
        return Ok(None);
    }
    let whole = build(alloc, program)?;
    Ok(Some(whole))
}

/// The text of a program's module: one that is well formed and whose names are distinct has one, and no other does.
pub fn written(alloc: Global, program: &StepProgram) -> Result<Option<Vec<u8>>, NoMemory>
    ensures made { IfOk result (λ found. IsSome found ↔ IsBuildable (program_tree program.now)) }
    ensures text { IfOk result (λ found. IfSome found (λ text. IsTextOf (program_tree program.now) text.items)) }
{
    if !is_buildable(alloc, program)? {
        return Ok(None);
    }
    let text = program_text(alloc, program)?;
    Ok(Some(text))
}

/// The module that is read from the text of a program's module. It has the program's items, arrays, pins and states, and can be clocked.
/// Only want of memory is refused. There is none for a program without a module, and none for a text of 2^32 bytes or more, which only a
/// program has whose module's stated size is as much.
pub fn read_back(alloc: Global, program: &StepProgram) -> Result<Option<Module>, VerilogFault>
    ensures made { IfOk result (λ found. IsBuildable (program_tree program.now) → module_most 20 (program_tree program.now) < 2 ^ 32 → IsSome found) }
    ensures only { IfOk result (λ found. IsSome found → IsBuildable (program_tree program.now)) }
    ensures found { IfOk result (λ found. IfSome found (λ m. IsModuleOf (program_tree program.now) (module_tree m))) }
    ensures clockable { IfOk result (λ found. IfSome found (λ m. IsClockable (module_tree m))) }
    ensures fault { IfErr result (λ fault. fault ≡ OutOfMemory) }
{
    let Some(text) = written(alloc, program)? else {
        return Ok(None);
    };
    if text.len() >= 1 << 32 {
        return Ok(None);
    }
    let whole = read_module(alloc, &text)?;
    Ok(Some(whole))
}
