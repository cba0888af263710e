//! Lines of sources.
ghost use Rattle.std.specs.Prelude.{◌≡◌, ◌<◌, length};

use crate::instructions::{Instruction, Instructions};
use asm_source::{LineToken, Part, SourceFault, SourceLine, read_source};
use lisa_syntax::{LineFault, Operand};
use std::alloc::Global;
use std::test::Fail;

// The pieces of a line, none where it is no instruction.
fn pieces(alloc: Global, line: SourceLine) -> Vec<LineToken> {
    let SourceLine {
        line: _,
        labels: _,
        part,
    } = line;
    match part {
        Part::Instruction(tokens) => tokens,
        _ => Vec::new(alloc),
    }
}

/// The pieces of a source's only line, of at most 4,096 bytes.
pub fn tokens(alloc: Global, line: &[u8]) -> Result<Vec<LineToken>, SourceFault> {
    if line.len() > 4096 {
        return Err(SourceFault::NoMemory);
    }
    let mut lines = read_source(alloc, line)?;
    match lines.pop() {
        Some(line) => Ok(pieces(alloc, line)),
        None => Ok(Vec::new(alloc)),
    }
}

// The values that operands are.
fn values(alloc: Global, operands: &[Operand<'_>]) -> Result<Vec<u64>, Fail> {
    let mut values = Vec::new(alloc);
    for operand in operands {
        match operand {
            Operand::Value(value) => values.push(*value)?,
            Operand::Sum(_) => return Err(Fail::from("a sum")),
        }
    }
    Ok(values)
}

/// The instruction that a line is read as, where it is one.
pub fn read(alloc: Global, set: &Instructions, line: &[u8]) -> Result<Option<Instruction>, Fail> {
    let tokens = tokens(alloc, line)?;
    match set.syntax.read_line(&tokens) {
        Ok(matched) => Ok(Some(Instruction {
            form: matched.form,
            values: values(alloc, &matched.operands)?,
        })),
        Err(LineFault::NoInstruction) => Ok(None),
        Err(fault) => Err(Fail::from(fault)),
    }
}
