//! How many lines and words are instructions.

ghost use Rattle.std.specs.Prelude.{◌≡◌, ◌+◌, ◌-◌, ◌*◌, ◌%◌, ◌^◌, ◌<◌, ◌≤◌, IfSome, length};

use crate::instructions::Instructions;
use asm_source::{LineToken, Part, SourceLine, read_source};
use lisa_syntax::{LineFault, Syntax};
use std::alloc::Global;

// What the number of a word is multiplied by. It is odd, so all words of a width come before one comes again.
const FACTOR: u64 = 11_400_714_819_323_198_485;

/// How many are instructions, and how many aren't.
#[derive(Clone, Copy)]
pub struct Tally {
    pub found: u64,
    pub missed: u64,
}

impl Tally {
    // Counts one more.
    fn add(&mut self, is_found: bool)
        requires { self.old.found + self.old.missed < 2 ^ 64 - 1 }
        ensures { self.new.found + self.new.missed ≡ self.old.found + self.old.missed + 1 }
    {
        if is_found {
            self.found += 1;
        } else {
            self.missed += 1;
        }
    }
}

// The word of a number: its product with the factor, of which as many low bits are kept as an instruction has.
fn word_of(number: u64, width: u32) -> u64
    ensures { result ≡ number * 11400714819323198485 % 2 ^ 64 % 2 ^ width }
{
    let product = number.wrapping_mul(FACTOR);
    if width < 64 {
        product % (1 << width)
    } else {
        product
    }
}

/// Of so many words how many are instructions by their bits. It takes no memory.
pub fn decoded(instructions: &Instructions, count: u64) -> Tally
    ensures { result.found + result.missed ≡ count }
{
    let mut tally = Tally {
        found: 0,
        missed: 0,
    };
    'words: for number in 0..count {
        let word = word_of(number, instructions.width);
        tally.add(instructions.coding.form_of(word).is_some());
    }
    tally
}

// Whether a line is read as an instruction; nothing where memory was wanted.
fn is_read(syntax: &Syntax, line: &[LineToken]) -> Option<bool> {
    match syntax.read_line(line) {
        Ok(_) => Some(true),
        Err(LineFault::NoMemory) => None,
        Err(_) => Some(false),
    }
}

// Of the lines with an instruction, how many are read as one.
fn tally_of(syntax: &Syntax, lines: &[SourceLine]) -> Option<Tally>
    ensures { IfSome result (λ tally. tally.found + tally.missed ≤ length lines.now) }
{
    let mut tally = Tally {
        found: 0,
        missed: 0,
    };
    'lines: for line in lines {
        if let Part::Instruction(tokens) = &line.part {
            tally.add(is_read(syntax, tokens)?);
        }
    }
    Some(tally)
}

/// Of the lines of a source with an instruction, how many are read as one; nothing where the bytes are no source or memory was wanted.
pub fn read_lines(alloc: Global, instructions: &Instructions, bytes: &[u8]) -> Option<Tally>
    requires { length bytes.now ≤ 134217728 }
{
    let lines = read_source(alloc, bytes).ok()?;
    tally_of(&instructions.syntax, &lines)
}
