//! The command that writes the module of a description.
ghost use Rattle.std.specs.Prelude.{◌<◌, ◌^◌, length, IfOk, IfErr};
ghost use Rattle.lisa_tree.specs.Descriptions.{description_tree};
ghost use Rattle.lisa_lower.specs.lisa_machine.Machines.{IsSpelled};
ghost use Rattle.lisa_outcomes.specs.Replies.{Replies};
ghost use Rattle.lisa_outcomes.specs.Writes.{Writes};
ghost use Rattle.checked_descriptions.specs.Descriptions.{AfterSpelling};
ghost use Rattle.checked_descriptions.specs.ToolViews.{checked_of, AreTools};
ghost use Rattle.step_program.specs.Programs.{program_tree};
ghost use Rattle.lisa_lower.specs.Lowered.{IsLowered};
ghost use Rattle.verilog_command.specs.Modules.{IsLightText, IsHeavyEnd, WritesModule, WritesVerilog};

use checked_descriptions::{Tools, description_of, tools_of};
use lisa_io::{Sink, put_all};
use lisa_lower::{LowerFault, lower};
use lisa_outcomes::{End, Refusal};
use lisa_tree::Description;
use netlist_build::program_text;
use std::alloc::Global;

// The text of the module of a description that is checked.
fn module_text(alloc: Global, tools: &Tools) -> Result<Vec<u8>, End>
    requires { AreTools tools.now }
    ensures text { IfOk result (λ text. IsLightText (checked_of tools.now) text.items) }
    ensures end { IfErr result (IsHeavyEnd (checked_of tools.now)) }
{
    match lower(alloc, &tools.machine, &tools.forms, &tools.coding) {
        Ok(program) => match program_text(alloc, &program) {
            Ok(text) => Ok(text),
            Err(_) => Err(End::NoMemory),
        },
        Err(fault) => match fault {
            LowerFault::NoMemory => Err(End::NoMemory),
            heavy => Err(End::Refused(Refusal::Netlist(heavy))),
        },
    }
}

// Writes a text.
fn write_text<O: Sink>(text: &[u8], out: &mut O) -> Result<(), End>
    ensures { Writes (O.written out.old) (O.written out.new) (O.faults out.old) (O.faults out.new) result text.now }
{
    match put_all(out, text) {
        Ok(()) => Ok(()),
        Err(_) => Err(End::WriteFault),
    }
}

// Writes the module of a description that is checked.
fn write_module<O: Sink>(alloc: Global, tools: &Tools, out: &mut O) -> Result<(), End>
    requires { AreTools tools.now }
    ensures { Replies (WritesModule (checked_of tools.now)) (O.written out.old) (O.written out.new) (O.faults out.old) (O.faults out.new) result }
{
    match module_text(alloc, tools) {
        Ok(text) => write_text(&text, out),
        Err(end) => Err(end),
    }
}

// `verilog` on a description.
fn write_tree<O: Sink>(alloc: Global, description: Description, out: &mut O) -> Result<(), End>
    requires { IsSpelled (description_tree description) }
    ensures { Replies (WritesVerilog (description_tree description)) (O.written out.old) (O.written out.new) (O.faults out.old) (O.faults out.new) result }
{
    match tools_of(alloc, description) {
        Ok(tools) => write_module(alloc, &tools, out),
        Err(end) => Err(end),
    }
}

/// `verilog`: writes a module with the items, arrays, pins and states of the description that the bytes spell, where no condition is broken
/// in it and its weight is at most 50,000, and is refused with the first fault of the first condition that is, or with the weight. The text
/// has at most 2,048 bytes for each unit of weight, item, array and pin, and for 16 more.
pub fn write_verilog<O: Sink>(alloc: Global, bytes: &[u8], out: &mut O) -> Result<(), End>
    requires { length bytes.now < 2 ^ 32 }
    ensures { Replies (AfterSpelling bytes.now WritesVerilog) (O.written out.old) (O.written out.new) (O.faults out.old) (O.faults out.new) result }
{
    match description_of(alloc, bytes) {
        Ok(description) => write_tree(alloc, description, out),
        Err(end) => Err(end),
    }
}
