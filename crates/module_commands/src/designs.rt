//! What a module's clock is made of, from bytes.
ghost use Rattle.std.specs.Prelude.{◌≡◌, ◌<◌, ◌^◌, [], length, IfOk, IfSome};
ghost use Rattle.lisa_engine.specs.Images.{IsImage};
ghost use Rattle.lisa_outcomes.specs.RunViews.{bytes_of};
ghost use Rattle.lisa_outcomes.specs.Stages.{Finds};
ghost use Rattle.verilog_text.specs.Trees.{module_tree};
ghost use Rattle.verilog_text.specs.Clockable.{IsClockable};
ghost use Rattle.verilog_text.specs.Faults.{VAccepts};
ghost use Rattle.module_commands.specs.Designs.{IsUnreadModule, IsDesign, IsNoDesign};
ghost use Rattle.module_commands.specs.DesignViews.{design_of};
ghost use Rattle.module_commands.specs.Unread.{unread_end};

use crate::parts::Parts;
use engine_commands::{image_of, memories};
use lisa_outcomes::{End, Refusal, RunBytes};
use std::alloc::Global;
use verilog_reader::read_module;
use verilog_text::{Module, VerilogFault};

// The end of a command whose module wasn't read.
fn unread(fault: VerilogFault) -> End
    ensures { result ≡ unread_end fault }
{
    match fault {
        VerilogFault::NoMemory => End::NoMemory,
        other => End::Refused(Refusal::Verilog(other)),
    }
}

/// The module that bytes spell.
pub fn module_of(alloc: Global, bytes: &[u8]) -> Result<Module, End>
    requires { length bytes.now < 2 ^ 32 }
    ensures finds { Finds module_tree (VAccepts bytes.now) (IsUnreadModule bytes.now) result }
    ensures clockable { IfOk result (λ m. IsClockable (module_tree m)) }
{
    match read_module(alloc, bytes) {
        Ok(module) => Ok(module),
        Err(fault) => Err(unread(fault)),
    }
}

/// The module and the image of a run.
pub fn read_parts(alloc: Global, bytes: &RunBytes<'_>) -> Result<Parts, End>
    requires main { length (bytes_of bytes.now).main < 2 ^ 32 }
    requires image { IfSome (bytes_of bytes.now).image (λ image. length image < 2 ^ 32) }
    ensures finds { Finds design_of (IsDesign (bytes_of bytes.now)) (IsNoDesign (bytes_of bytes.now)) result }
    ensures clockable { IfOk result (λ parts. IsClockable (module_tree parts.clocked)) }
    ensures kept { IfOk result (λ parts. IsImage parts.image) }
{
    let clocked = match module_of(alloc, bytes.main) {
        Ok(clocked) => clocked,
        Err(end) => return Err(end),
    };
    match image_of(alloc, bytes) {
        Ok(image) => Ok(Parts {
            clocked,
            image: memories(alloc, image),
        }),
        Err(end) => Err(end),
    }
}
