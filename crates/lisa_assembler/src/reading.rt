// Assembling the bytes of sources.
ghost use Rattle.std.specs.Prelude.{◌≡◌, ◌⊎◌, ◌<◌, ◌^◌, List, Ok, IfErr, IfOk, length};
ghost use Rattle.std.specs.Str.Lines.{lines};
ghost use Rattle.lisa_tree.specs.Descriptions.{description_tree};
ghost use Rattle.asm_source.specs.Plain.{PlainLine};
ghost use Rattle.asm_source.specs.Source.{source_of};
ghost use Rattle.asm_source.specs.Gives.{Misses};
ghost use Rattle.asm_source.specs.declared.flaw.SourceFault.TheVariants as faults;
ghost use Rattle.lisa_object.specs.Objects.{object_tree};
ghost use Rattle.lisa_assembler.specs.Tooling.{AreTools};
ghost use Rattle.lisa_assembler.specs.Objects.{digest_of};
ghost use Rattle.lisa_assembler.specs.Sourced.{IsObjectOfBytes, IsFaultOfBytes};

use crate::line::assemble_line;
use crate::tools::Tools;
use asm_source::{SourceFault, read_line};
use lisa_object::Object;
use std::alloc::Global;
use std::collections::BTreeSet;
use text_lines::next_line;

// The first fault of a source in which a line has this one, and none before it: that of the first line that says nothing, if there is one.
// A line is dropped once it is read.
fn first_fault(alloc: Global, bytes: &[u8], fault: SourceFault) -> SourceFault
    requires { length (lines bytes.now) < 2 ^ 32 }
    ensures { Misses result (source_of bytes.now) ⊎ ((ls : List PlainLine) × (source_of bytes.now ≡ Ok ls) × (result ≡ fault)) }
{
    let mut number: u32 = 0;
    let mut rest = bytes;
    'each: while let Some((text, after)) = next_line(rest) {
        number += 1;
        match read_line(alloc, number, text) {
            Ok(line) => drop(line),
            Err(unread) => return unread,
        }
        rest = after;
    }
    fault
}

/// The object of the source that bytes are, of a description with this digest, or the fault of its first line that says nothing, or else
/// of its first line that has one. A line is assembled once it is read, and isn't kept.
pub fn assemble_bytes(
    alloc: Global,
    tools: &Tools<'_>,
    digest: [u8; 32],
    bytes: &[u8],
) -> Result<Object, SourceFault>
    requires tools { AreTools tools.now }
    requires digest { digest ≡ digest_of (description_tree tools.now.machine.now) }
    requires short { length (lines bytes.now) < 2 ^ 32 }
    ensures object { IfOk result (λ o. IsObjectOfBytes (description_tree tools.now.machine.now) bytes.now (object_tree o)) }
    ensures fault { IfErr result (λ f. (f ≡ faults.NoMemory) ⊎ IsFaultOfBytes (description_tree tools.now.machine.now) bytes.now f) }
{
    let mut seen = BTreeSet::new(alloc);
    let mut own = Vec::new(alloc);
    let mut here = None;
    let mut number: u32 = 0;
    let mut rest = bytes;
    'each: while let Some((text, after)) = next_line(rest) {
        number += 1;
        let line = read_line(alloc, number, text)?;
        here = match assemble_line(alloc, tools, here, &mut seen, &mut own, &line) {
            Ok(next) => next,
            Err(fault) => return Err(first_fault(alloc, bytes, fault)),
        };
        rest = after;
    }
    Ok(Object { digest, lines: own })
}
