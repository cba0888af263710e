//! The command that only checks a description.
ghost use Rattle.std.specs.Prelude.{◌<◌, ◌^◌, length};
ghost use Rattle.lisa_tree.specs.Descriptions.{description_tree};
ghost use Rattle.checked_descriptions.specs.Descriptions.{AfterSpelling};
ghost use Rattle.description_commands.specs.Checks.{counts_of, counts_text, Checks};
ghost use Rattle.checked_descriptions.specs.ToolViews.{checked_of, AreTools};
ghost use Rattle.lisa_sim.specs.lisa_machine.Machines.{IsSpelled};
ghost use Rattle.lisa_outcomes.specs.Replies.{Replies};
ghost use Rattle.lisa_outcomes.specs.Writes.{Writes};

use crate::counts::{Counts, put_counts};
use checked_descriptions::{Tools, description_of, tools_of};
use lisa_io::Sink;
use lisa_outcomes::End;
use lisa_tree::Description;
use std::alloc::Global;

// Writes how much there is of a description that is checked.
fn write_counts<O: Sink>(tools: &Tools, out: &mut O) -> Result<(), End>
    requires { AreTools tools.now }
    ensures { Writes (O.written out.old) (O.written out.new) (O.faults out.old) (O.faults out.new) result (counts_text (counts_of (checked_of tools.now))) }
{
    match put_counts(out, Counts::of(tools)) {
        Ok(()) => Ok(()),
        Err(_) => Err(End::WriteFault),
    }
}

// `check` on a description.
fn check_tree<O: Sink>(alloc: Global, description: Description, out: &mut O) -> Result<(), End>
    requires { IsSpelled (description_tree description) }
    ensures { Replies (Checks (description_tree description)) (O.written out.old) (O.written out.new) (O.faults out.old) (O.faults out.new) result }
{
    match tools_of(alloc, description) {
        Ok(tools) => write_counts(&tools, out),
        Err(end) => Err(end),
    }
}

/// `check`: writes how many operations the description has that the bytes spell, and how many forms, occurrences and items it unfolds to,
/// where no condition is broken in it, and is refused with the first fault of the first condition that is.
pub fn check_description<O: Sink>(alloc: Global, bytes: &[u8], out: &mut O) -> Result<(), End>
    requires { length bytes.now < 2 ^ 32 }
    ensures { Replies (AfterSpelling bytes.now Checks) (O.written out.old) (O.written out.new) (O.faults out.old) (O.faults out.new) result }
{
    match description_of(alloc, bytes) {
        Ok(description) => check_tree(alloc, description, out),
        Err(end) => Err(end),
    }
}
