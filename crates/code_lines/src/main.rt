//! Reads the instruction lines of a source, or finds the forms of words, for a description, and says how many are instructions and how
//! many aren't. The bench of lines and words runs it.
#![tactic(auto)]

mod counts;
mod instructions;

use counts::{Tally, decoded, read_lines};
use instructions::{Instructions, read_instructions};
use lisa_io::{Failed, Files, HostFiles, HostSink, Sink, put_all, read_whole};
use lisa_words::{decimal, decimal_value};
use std::alloc::Global;
use std::env;
use std::process::ExitCode;

// The most bytes of a file.
const LIMIT: u64 = 134_217_728;

// What the word asks for: the lines of a source, or the words from 0 on, so many of them.
fn tallied<F: Files>(
    alloc: Global,
    files: &mut F,
    instructions: &Instructions,
    word: &str,
    what: &str,
) -> Option<Tally> {
    match word {
        "lines" => {
            let bytes = read_whole(alloc, files, what, LIMIT).ok()?;
            read_lines(alloc, instructions, &bytes)
        }
        "words" => Some(decoded(instructions, decimal_value(what.as_bytes())?)),
        _ => None,
    }
}

// Does what the words say; nothing where a file isn't read or memory was wanted.
fn told(rt: &HostRuntime) -> Option<Tally> {
    let mut args = env::args(rt).ok()?;
    let _ = args.next();
    let word = args.next()?;
    let description = args.next()?;
    let what = args.next()?;
    let mut files = HostFiles::new(rt.alloc(), rt);
    let bytes = read_whole(rt.alloc(), &mut files, description.as_str(), LIMIT).ok()?;
    let instructions = read_instructions(rt.alloc(), &bytes).ok()?;
    tallied(
        rt.alloc(),
        &mut files,
        &instructions,
        word.as_str(),
        what.as_str(),
    )
}

// Writes a word, a blank, a number and a line feed.
fn tell<O: Sink>(out: &mut O, word: &[u8], count: u64) -> Result<(), Failed> {
    let mut digits = [0; 20];
    let len = decimal(count, &mut digits);
    put_all(out, word)?;
    put_all(out, &digits[..len])?;
    put_all(out, b"\n")
}

fn tell_both(rt: &HostRuntime, tally: Tally) -> Result<(), Failed> {
    let mut out = HostSink::new(rt.stdout());
    tell(&mut out, b"found ", tally.found)?;
    tell(&mut out, b"missed ", tally.missed)
}

fn main(rt: HostRuntime) -> ExitCode {
    let Some(tally) = told(&rt) else {
        return ExitCode::from(1);
    };
    match tell_both(&rt, tally) {
        Ok(()) => ExitCode::from(0),
        Err(_) => ExitCode::from(1),
    }
}
