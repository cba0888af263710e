//! The command that prints a description.
ghost use Rattle.std.specs.Prelude.{◌<◌, ◌^◌, length};
ghost use Rattle.lisa_tree.specs.Descriptions.{description_tree};
ghost use Rattle.lisa_printer.specs.CanonicalText.{canonical_text};
ghost use Rattle.lisa_printer.specs.CanonicalTokens.{description_tokens};
ghost use Rattle.checked_descriptions.specs.Descriptions.{AfterSpelling};
ghost use Rattle.description_commands.specs.Formats.{Formats};
ghost use Rattle.lisa_outcomes.specs.Replies.{Replies};
ghost use Rattle.lisa_outcomes.specs.Writes.{Writes};

use checked_descriptions::description_of;
use lisa_io::{Sink, put_all};
use lisa_outcomes::End;
use lisa_printer::print_description;
use lisa_tree::Description;
use std::alloc::Global;

// Writes the canonical text of a description.
fn format_tree<O: Sink>(alloc: Global, description: &Description, out: &mut O) -> Result<(), End>
    ensures { Writes (O.written out.old) (O.written out.new) (O.faults out.old) (O.faults out.new) result (canonical_text (description_tokens (description_tree description.now))) }
{
    let text = match print_description(alloc, description) {
        Ok(text) => text,
        Err(_) => return Err(End::NoMemory),
    };
    match put_all(out, &text) {
        Ok(()) => Ok(()),
        Err(_) => Err(End::WriteFault),
    }
}

/// `fmt`: writes the canonical text of the description that the bytes spell.
pub fn format_description<O: Sink>(alloc: Global, bytes: &[u8], out: &mut O) -> Result<(), End>
    requires { length bytes.now < 2 ^ 32 }
    ensures { Replies (AfterSpelling bytes.now Formats) (O.written out.old) (O.written out.new) (O.faults out.old) (O.faults out.new) result }
{
    match description_of(alloc, bytes) {
        Ok(description) => format_tree(alloc, &description, out),
        Err(end) => Err(end),
    }
}
