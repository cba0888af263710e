// Assembling sources.
#![tactic(auto, using(crate::proofs::Lists::one_line))]

ghost use Rattle.std.specs.Prelude.{◌≡◌, ◌⊎◌, [], None, IfErr, IfOk, map};
ghost use Rattle.lisa_tree.specs.Descriptions.{description_tree};
ghost use Rattle.asm_source.specs.Plain.{line_tree};
ghost use Rattle.asm_source.specs.declared.flaw.SourceFault.TheVariants as faults;
ghost use Rattle.lisa_object.specs.Objects.{object_tree};
ghost use Rattle.lisa_assembler.specs.Faults.{IsSourceFault};
ghost use Rattle.lisa_assembler.specs.Tooling.{AreTools};
ghost use Rattle.lisa_assembler.specs.Objects.{digest_of, IsObjectOf};

use crate::line::assemble_line;
use crate::tools::Tools;
use asm_source::{SourceFault, SourceLine};
use lisa_object::Object;
use std::alloc::Global;
use std::collections::BTreeSet;

/// The object of a source of a description with this digest, or the fault of its first line that has one.
pub fn assemble(
    alloc: Global,
    tools: &Tools<'_>,
    digest: [u8; 32],
    lines: &[SourceLine],
) -> Result<Object, SourceFault>
    requires tools { AreTools tools.now }
    requires digest { digest ≡ digest_of (description_tree tools.now.machine.now) }
    ensures object { IfOk result (λ o. IsObjectOf (description_tree tools.now.machine.now) (map line_tree lines.now) (object_tree o)) }
    ensures fault { IfErr result (λ f. (f ≡ faults.NoMemory) ⊎ IsSourceFault (description_tree tools.now.machine.now) None [] (map line_tree lines.now) f) }
{
    let mut seen = BTreeSet::new(alloc);
    let mut own = Vec::new(alloc);
    let mut here = None;
    'each: for line in lines {
        here = assemble_line(alloc, tools, here, &mut seen, &mut own, line)?;
    }
    Ok(Object { digest, lines: own })
}
