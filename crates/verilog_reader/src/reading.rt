//! Verilog modules from bytes.

ghost use Rattle.std.specs.Prelude.{◌≡◌, ◌<◌, ◌^◌, length, IfOk, IfErr};
ghost use Rattle.verilog_text.specs.declared.faults.VerilogFault.{VerilogFault as TheFault};
ghost use Rattle.verilog_text.specs.Trees.{ModuleTree, module_tree};
ghost use Rattle.verilog_text.specs.Faults.{VAccepts, VFault};
ghost use Rattle.verilog_text.specs.Clockable.{IsClockable};
ghost use Rattle.verilog_reader.specs.Answers.{IsFault, IsRead, IsRefused};

use std::alloc::Global;
use verilog_checks::check_names;
use verilog_lexer::{tokens, too_deep};
use verilog_module_reader::read_placed;
use verilog_places::strip;
use verilog_size_checks::check_sizes;
use verilog_text::{Module, VerilogFault};

// The module that is read, or the first fault.
fn read(alloc: Global, bytes: &[u8]) -> Result<Module, VerilogFault>
    requires { length bytes.now < 2 ^ 32 }
    ensures found { IfOk result (λ m. VAccepts bytes.now (module_tree m)) }
    ensures fault { IfErr result (IsFault bytes.now) }
{
    let tokens = tokens(alloc, bytes)?;
    if let Some(at) = too_deep(&tokens) {
        return Err(VerilogFault::TooDeep { at });
    }
    let placed = read_placed(alloc, &tokens)?;
    drop(tokens);
    check_names(alloc, &placed)?;
    check_sizes(alloc, &placed)?;
    Ok(strip(alloc, placed)?)
}

/// The module that the bytes spell. What is wrong first is the fault: first a byte, then the brackets, then the grammar, and then the
/// rules on names and sizes, in the order of their numbers.
///
/// Recursion is as deep as the brackets and the depth of the module together, which are limited to 64 and 128.
pub fn read_module(alloc: Global, bytes: &[u8]) -> Result<Module, VerilogFault>
    requires { length bytes.now < 2 ^ 32 }
    // What is read is spelled, and nothing of the conditions is broken in it.
    ensures found { IfOk result (λ m. VAccepts bytes.now (module_tree m)) }
    // A fault is the first one of the text.
    ensures fault { IfErr result (IsFault bytes.now) }
    // What is spelled without a broken condition is read, unless memory runs out.
    ensures only { (m : ModuleTree) → VAccepts bytes.now m → IsRead m result }
    // What is broken first is answered, unless memory runs out; the place of NotInSubset is only bounded.
    ensures only_fault { (fault : TheFault) → VFault bytes.now fault → IsRefused fault result }
    // What is read can be clocked.
    ensures clockable { IfOk result (λ m. IsClockable (module_tree m)) }
{
    read(alloc, bytes)
}
