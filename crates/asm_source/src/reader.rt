// Lines of a source, from its bytes.
ghost use Rattle.std.specs.Prelude.{◌≡◌, ◌<◌, ◌^◌, map, length};
ghost use Rattle.std.specs.Str.Lines.{lines};
ghost use Rattle.asm_source.specs.Plain.{line_tree, part_tree};
ghost use Rattle.asm_source.specs.Parts.{part_of, statement_of, line_of};
ghost use Rattle.asm_source.specs.Source.{numbered, source_of};
ghost use Rattle.asm_source.specs.Gives.{Gives, Finds};

use crate::bytes::{are_line_bytes, cut_word, without_comment};
use crate::directives::directive;
use crate::flaw::{Flaw, SourceFault, fault_at};
use crate::instruction::instruction;
use crate::labels::labels;
use crate::parts::{Part, SourceLine};
use lisa_words::Name;
use std::alloc::Global;
use text_lines::next_line;

// What stands behind the labels.
#[tactic(auto, unfolding(crate::specs::Parts::part_of))]
fn part(alloc: Global, text: &[u8]) -> Result<Part, Flaw>
    ensures { Gives part_tree result (part_of text.now) }
{
    match text {
        [] => Ok(Part::Nothing),
        [b'.', ..] => {
            let (word, rest) = cut_word(text);
            directive(alloc, word, rest)
        }
        _ => {
            let (tokens, _) = instruction(alloc, text)?;
            Ok(Part::Instruction(tokens))
        }
    }
}

fn statement(alloc: Global, text: &[u8]) -> Result<(Vec<Name>, Part), Flaw>
    ensures { Gives (λ x. (x.0.items, part_tree x.1)) result (statement_of text.now) }
{
    let (labels, rest) = labels(alloc, text)?;
    let part = part(alloc, rest)?;
    Ok((labels, part))
}

// What a line says.
#[tactic(auto, unfolding(crate::specs::Parts::line_of))]
fn line(alloc: Global, line: &[u8]) -> Result<(Vec<Name>, Part), Flaw>
    ensures { Gives (λ x. (x.0.items, part_tree x.1)) result (line_of line.now) }
{
    if !are_line_bytes(line) {
        return Err(Flaw::BadLine);
    }
    statement(alloc, without_comment(line))
}

/// What the line of this number says, or why it says nothing.
pub fn read_line(alloc: Global, number: u32, text: &[u8]) -> Result<SourceLine, SourceFault>
    ensures { Finds line_tree result (numbered number (line_of text.now)) }
{
    match line(alloc, text) {
        Ok((labels, part)) => Ok(SourceLine {
            line: number,
            labels,
            part,
        }),
        Err(flaw) => Err(fault_at(number, flaw)),
    }
}

/// What the lines of the bytes say, all of them in order.
///
/// The fault is that of the first line that has one.
pub fn read_source(alloc: Global, bytes: &[u8]) -> Result<Vec<SourceLine>, SourceFault>
    requires { length (lines bytes.now) < 2 ^ 32 }
    ensures { Finds (λ v. map line_tree v.items) result (source_of bytes.now) }
{
    let count = bytes.iter().filter(|b| **b == b'\n').count();
    let mut all = Vec::with_capacity(alloc, count + 1)?;
    let mut number: u32 = 0;
    let mut rest = bytes;
    'each: while let Some((text, after)) = next_line(rest) {
        number += 1;
        all.push(read_line(alloc, number, text)?)?;
        rest = after;
    }
    Ok(all)
}
