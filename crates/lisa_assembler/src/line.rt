// A line of a source.
ghost use Rattle.std.specs.Prelude.{◌≡◌, ◌⊎◌, ◌++◌, ◌∷◌, ◌≤◌, ◌↔◌, [], true, List, ℕ, None, Some, IfErr, IfOk, IfSome, IsTrue, OnOk, Option, map, option_copied, option_to_list};
ghost use Rattle.lisa_tree.specs.Descriptions.{description_tree};
ghost use Rattle.asm_source.specs.Plain.{token_tree, value_tree, part_tree, line_tree, Nothing, Section, Global, Equ, Cells, Space, Instruction};
ghost use Rattle.asm_source.specs.declared.flaw.SourceFault.TheVariants as faults;
ghost use Rattle.lisa_object.specs.Objects.{Label, object_line_tree};
ghost use Rattle.lisa_object.specs.Seen.{HoldsSorted};
ghost use Rattle.lisa_engine.specs.declared.parts.ArrayItem.{ArrayItem};
ghost use Rattle.lisa_tree.specs.Descriptions.{DescriptionTree};
ghost use Rattle.lisa_assembler.specs.Faults.{IsFaultOf, IsOutside, first_double, needs_section};
ghost use Rattle.lisa_assembler.specs.Memories.{memory_named};
ghost use Rattle.lisa_assembler.specs.Places.{HasWords};
ghost use Rattle.lisa_assembler.specs.Sources.{HoldsInstructions, line_names, part_names, section_behind};
ghost use Rattle.lisa_assembler.specs.Tooling.{AreTools};
ghost use Rattle.lisa_assembler.specs.Steps.{IsStep, IsPlainPart, plain_lines};

use crate::cells::push_values;
use crate::coded::{push_coded, read_tokens};
use crate::names::enter_names;
use crate::tools::Tools;
use asm_source::{CellValue, LineToken, Part, SourceFault, SourceLine};
use lisa_engine::ArrayItem;
use lisa_object::ObjectLine;
use lisa_words::Name;
use std::alloc::{AllocError, Global};
use std::collections::BTreeSet;

fn needs_section(part: &Part) -> bool
    ensures { result ≡ needs_section (part_tree part.now) }
{
    matches!(part, Part::Space(_) | Part::Cells(_) | Part::Instruction(_))
}

// Whether a part is written as it stands.
fn is_plain(part: &Part) -> bool
    ensures { IsTrue result → IsPlainPart (part_tree part.now) }
{
    matches!(
        part,
        Part::Nothing | Part::Global(_) | Part::Equ(_, _) | Part::Space(_)
    )
}

// Whether a line that needs a section stands before any.
fn is_outside(here: Option<&ArrayItem>, line: &SourceLine) -> bool
    ensures { IsTrue result ↔ IsOutside (option_copied here.entry) (line_tree line.now) }
{
    here.is_none() && (needs_section(&line.part) || !line.labels.is_empty())
}

// The name that a line without cells defines beside its labels.
fn own_name(part: &Part) -> Option<&Name>
    ensures { option_to_list (option_copied result) ≡ part_names (part_tree part.now) }
{
    match part {
        Part::Equ(name, _) => Some(name),
        _ => None,
    }
}

// Begins a line: the names that it defines are new, and its labels are added.
fn begin_line(
    seen: &mut BTreeSet<Name>,
    lines: &mut Vec<ObjectLine>,
    line: &SourceLine,
) -> Result<(), SourceFault>
    ensures added { OnOk result (map object_line_tree lines.new.items ≡ map object_line_tree lines.old.items ++ map Label (line_tree line.now).labels) }
    ensures new { (names : List (List ℕ)) → HoldsSorted seen.old names
        → OnOk result ((first_double names (line_names (line_tree line.now)) ≡ None) × HoldsSorted seen.new (line_names (line_tree line.now) ++ names)) }
    ensures fault { (names : List (List ℕ)) → HoldsSorted seen.old names
        → IfErr result (λ f. (f ≡ faults.NoMemory) ⊎ ((n : List ℕ) × (first_double names (line_names (line_tree line.now)) ≡ Some n) × (f ≡ faults.DuplicateLabel line.now.line n))) }
{
    enter_names(seen, lines, line.line, &line.labels, own_name(&line.part))
}

// A line with `.section`.
fn section_line<'a>(
    tools: &Tools<'a>,
    seen: &mut BTreeSet<Name>,
    lines: &mut Vec<ObjectLine>,
    line: &SourceLine,
    name: &Name,
) -> Result<&'a ArrayItem, SourceFault>
    requires tools { AreTools tools.now }
    requires part { part_tree line.now.part ≡ Section name.now }
    ensures section { IfOk result (λ m. memory_named (description_tree tools.now.machine.now) name.now ≡ Some m.now) }
    ensures words { IfOk result (λ m. HasWords m.now) }
    ensures held { (names : List (List ℕ)) → HoldsSorted seen.old names → OnOk result (HoldsSorted seen.new (line_names (line_tree line.now) ++ names)) }
    ensures step { (here : Option ArrayItem) (names : List (List ℕ)) → HoldsSorted seen.old names → (IsOutside here (line_tree line.now) → ⊥)
        → OnOk result (IsStep (description_tree tools.now.machine.now) here names (line_tree line.now) (map object_line_tree lines.old.items) (map object_line_tree lines.new.items)) }
    ensures fault { (here : Option ArrayItem) (names : List (List ℕ)) → HoldsSorted seen.old names → (IsOutside here (line_tree line.now) → ⊥)
        → IfErr result (λ f. (f ≡ faults.NoMemory) ⊎ IsFaultOf (description_tree tools.now.machine.now) here names (line_tree line.now) f) }
{
    let memory = match tools.memories.named(name) {
        Some(memory) => memory,
        None => {
            let name = name.clone()?;
            return Err(SourceFault::UnknownMemory {
                line: line.line,
                name,
            });
        }
    };
    begin_line(seen, lines, line)?;
    let name = name.clone()?;
    lines.push(ObjectLine::Section(name, memory.width))?;
    Ok(memory)
}

// Whether this is a width, and the same as another.
fn is_wide(width: Option<u32>, other: u32) -> bool
    ensures { IsTrue result ↔ (width ≡ Some other) }
{
    width == Some(other)
}

// Whether a memory is as wide as an instruction.
fn holds_instructions(tools: &Tools<'_>, memory: &ArrayItem) -> bool
    requires { AreTools tools.now }
    ensures { IsTrue result ↔ HoldsInstructions (description_tree tools.now.machine.now) memory.now }
{
    is_wide(tools.forms.width(), memory.width)
}

// A line with an instruction, in the section of a memory.
fn code_line(
    alloc: Global,
    tools: &Tools<'_>,
    memory: &ArrayItem,
    seen: &mut BTreeSet<Name>,
    lines: &mut Vec<ObjectLine>,
    line: &SourceLine,
    tokens: &[LineToken],
) -> Result<(), SourceFault>
    requires tools { AreTools tools.now }
    requires part { part_tree line.now.part ≡ Instruction (map token_tree tokens.now) }
    ensures held { (names : List (List ℕ)) → HoldsSorted seen.old names → OnOk result (HoldsSorted seen.new (line_names (line_tree line.now) ++ names)) }
    ensures step { (here : Option ArrayItem) (names : List (List ℕ)) → here ≡ Some memory.now → HoldsSorted seen.old names
        → OnOk result (IsStep (description_tree tools.now.machine.now) here names (line_tree line.now) (map object_line_tree lines.old.items) (map object_line_tree lines.new.items)) }
    ensures fault { (here : Option ArrayItem) (names : List (List ℕ)) → here ≡ Some memory.now → HoldsSorted seen.old names
        → IfErr result (λ f. (f ≡ faults.NoMemory) ⊎ IsFaultOf (description_tree tools.now.machine.now) here names (line_tree line.now) f) }
{
    if !holds_instructions(tools, memory) {
        return Err(SourceFault::NotProgram { line: line.line });
    }
    let matched = read_tokens(alloc, tools, line.line, tokens)?;
    begin_line(seen, lines, line)?;
    match push_coded(alloc, tools, lines, &matched) {
        Ok(()) => Ok(()),
        Err(_) => Err(SourceFault::NoMemory),
    }
}

// A line with `.word`, in the section of a memory.
fn cells_line(
    memory: &ArrayItem,
    seen: &mut BTreeSet<Name>,
    lines: &mut Vec<ObjectLine>,
    line: &SourceLine,
    values: &[CellValue],
) -> Result<(), SourceFault>
    requires words { HasWords memory.now }
    requires part { part_tree line.now.part ≡ Cells (map value_tree values.now) }
    ensures held { (names : List (List ℕ)) → HoldsSorted seen.old names → OnOk result (HoldsSorted seen.new (line_names (line_tree line.now) ++ names)) }
    ensures step { (d : DescriptionTree) (here : Option ArrayItem) (names : List (List ℕ)) → here ≡ Some memory.now → HoldsSorted seen.old names
        → OnOk result (IsStep d here names (line_tree line.now) (map object_line_tree lines.old.items) (map object_line_tree lines.new.items)) }
    ensures fault { (d : DescriptionTree) (here : Option ArrayItem) (names : List (List ℕ)) → here ≡ Some memory.now → HoldsSorted seen.old names
        → IfErr result (λ f. (f ≡ faults.NoMemory) ⊎ IsFaultOf d here names (line_tree line.now) f) }
{
    begin_line(seen, lines, line)?;
    push_values(lines, line.line, memory.width, values)?;
    Ok(())
}

// Adds the line of a part that is written as it stands.
fn push_plain(lines: &mut Vec<ObjectLine>, part: &Part) -> Result<(), AllocError>
    ensures { OnOk result (map object_line_tree lines.new.items ≡ map object_line_tree lines.old.items ++ plain_lines (part_tree part.now)) }
{
    match part {
        Part::Global(name) => lines.push(ObjectLine::Global(name.clone()?))?,
        Part::Equ(name, value) => lines.push(ObjectLine::Equ(name.clone()?, *value))?,
        Part::Space(count) => lines.push(ObjectLine::Space(*count))?,
        _ => {}
    }
    Ok(())
}

// A line that is written as it stands.
fn plain_line(
    seen: &mut BTreeSet<Name>,
    lines: &mut Vec<ObjectLine>,
    line: &SourceLine,
) -> Result<(), SourceFault>
    requires { IsPlainPart (part_tree line.now.part) }
    ensures held { (names : List (List ℕ)) → HoldsSorted seen.old names → OnOk result (HoldsSorted seen.new (line_names (line_tree line.now) ++ names)) }
    ensures step { (d : DescriptionTree) (here : Option ArrayItem) (names : List (List ℕ)) → HoldsSorted seen.old names → (IsOutside here (line_tree line.now) → ⊥)
        → OnOk result (IsStep d here names (line_tree line.now) (map object_line_tree lines.old.items) (map object_line_tree lines.new.items)) }
    ensures fault { (d : DescriptionTree) (here : Option ArrayItem) (names : List (List ℕ)) → HoldsSorted seen.old names → (IsOutside here (line_tree line.now) → ⊥)
        → IfErr result (λ f. (f ≡ faults.NoMemory) ⊎ IsFaultOf d here names (line_tree line.now) f) }
{
    begin_line(seen, lines, line)?;
    push_plain(lines, &line.part)?;
    Ok(())
}

/// Assembles a line in a section, behind the names that were seen, and answers the section behind it.
pub(crate) fn assemble_line<'a>(
    alloc: Global,
    tools: &Tools<'a>,
    here: Option<&'a ArrayItem>,
    seen: &mut BTreeSet<Name>,
    lines: &mut Vec<ObjectLine>,
    line: &SourceLine,
) -> Result<Option<&'a ArrayItem>, SourceFault>
    requires tools { AreTools tools.now }
    requires words { IfSome (option_copied here) HasWords }
    ensures words { IfOk result (λ next. IfSome (option_copied next) HasWords) }
    ensures section { IfOk result (λ next. option_copied next ≡ section_behind (description_tree tools.now.machine.now) (option_copied here.entry) (part_tree line.now.part)) }
    ensures held { (names : List (List ℕ)) → HoldsSorted seen.old names → OnOk result (HoldsSorted seen.new (line_names (line_tree line.now) ++ names)) }
    ensures step { (names : List (List ℕ)) → HoldsSorted seen.old names
        → OnOk result (IsStep (description_tree tools.now.machine.now) (option_copied here.entry) names (line_tree line.now) (map object_line_tree lines.old.items) (map object_line_tree lines.new.items)) }
    ensures fault { (names : List (List ℕ)) → HoldsSorted seen.old names
        → IfErr result (λ f. (f ≡ faults.NoMemory) ⊎ IsFaultOf (description_tree tools.now.machine.now) (option_copied here.entry) names (line_tree line.now) f) }
{
    if is_outside(here, line) {
        return Err(SourceFault::NoSection { line: line.line });
    }
    if is_plain(&line.part) {
        plain_line(seen, lines, line)?;
        return Ok(here);
    }
    match (&line.part, here) {
        (Part::Section(name), _) => {
            let memory = section_line(tools, seen, lines, line, name)?;
            Ok(Some(memory))
        }
        (Part::Instruction(tokens), Some(memory)) => {
            code_line(alloc, tools, memory, seen, lines, line, tokens)?;
            Ok(here)
        }
        (Part::Cells(values), Some(memory)) => {
            cells_line(memory, seen, lines, line, values)?;
            Ok(here)
        }
        // Cells outside of any section were refused.
        _ => Err(SourceFault::NoMemory),
    }
}
