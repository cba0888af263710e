//! What is exported is imported again.
ghost use Rattle.std.specs.Prelude.{ℕ, List};
ghost use Rattle.hex_files.specs.declared.formats.MemoryFormat.{MemoryFormat};
ghost use Rattle.lisa_outcomes.specs.Outcomes.{Finished};
ghost use Rattle.memory_commands.specs.Exports.{GivesExport};
ghost use Rattle.memory_commands.specs.Passed.{IsPassed};

use checked_descriptions::conditions_are_in_order;
use hex_files::{hex_is_read_back, memh_is_read_back};
use item_promises::machines_show;

/// Where `tohex` or `tomem` writes a file of an image's memory, `fromhex` or `frommem` gives of that file the image of this memory alone, with
/// the cells that the image has there. A law: the function does nothing.
pub fn exports_are_imported()
    ensures { (format : MemoryFormat) (description image name file : List ℕ) → GivesExport format description image name (Finished file) → IsPassed format description image name file }
{
    conditions_are_in_order();
    machines_show();
    hex_is_read_back();
    memh_is_read_back();
}
