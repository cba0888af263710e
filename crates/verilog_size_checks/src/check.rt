// The conditions one after another.
ghost use Rattle.std.specs.Prelude.{IfOk, IfErr};
ghost use Rattle.verilog_places.specs.Trees.{placed_module};
ghost use Rattle.verilog_size_checks.specs.Answers.{SizesHold, IsFirstBrokenSize};

use crate::counts::check_counts;
use crate::drivers::check_drivers;
use crate::indexes::check_indexes;
use crate::measures::check_widths;
use crate::scope::Scope;
use std::alloc::Global;
use verilog_places::PlacedModule;
use verilog_text::VerilogFault;

/// Decides the conditions on widths, drivers and counts of a module, in this order: each index is as long as its array's depth needs, no
/// range and no expression is wider than 64 bits, no `reg` is assigned in two blocks, and nothing is counted beyond its limit.
pub fn check_sizes(alloc: Global, m: &PlacedModule) -> Result<(), VerilogFault>
    // Nothing is broken.
    ensures holds { IfOk result (λ _. SizesHold (placed_module m.now)) }
    // What is answered is broken, and nothing before it.
    ensures broken { IfErr result (IsFirstBrokenSize (placed_module m.now)) }
{
    let scope = Scope::of(alloc, m)?;
    check_indexes(&scope)?;
    check_widths(&scope)?;
    check_drivers(alloc, &m.members)?;
    check_counts(alloc, m)?;
    Ok(())
}
