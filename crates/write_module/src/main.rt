//! Writes the module of a made step program. The bench of step programs runs it.
#![tactic(auto)]

use lisa_io::{Failed, HostSink, put_all};
use lisa_words::NoMemory;
use netlist_samples::{Lines, long_chain, mixed_steps, through_a_cell, written};
use std::alloc::Global;
use std::env;
use std::process::ExitCode;
use step_program::StepProgram;

// The program that the word names, of so many steps where it may have any number.
fn made(alloc: Global, word: &str, lines: Lines) -> Result<Option<StepProgram>, NoMemory> {
    match word {
        "cell" => Ok(Some(through_a_cell(alloc)?)),
        "chain" => Ok(Some(long_chain(alloc, lines)?)),
        "mixed" => Ok(Some(mixed_steps(alloc, lines)?)),
        _ => Ok(None),
    }
}

// The text of the module that the words ask for.
fn text(rt: &HostRuntime) -> Option<Vec<u8>> {
    let mut args = env::args(rt).ok()?;
    let _ = args.next();
    let word = args.next()?;
    let lines = args.next()?.as_str().parse().ok()?;
    let program = made(rt.alloc(), word.as_str(), Lines(lines)).ok()??;
    written(rt.alloc(), &program).ok()?
}

fn tell(rt: &HostRuntime, text: &[u8]) -> Result<(), Failed> {
    let mut out = HostSink::new(rt.stdout());
    put_all(&mut out, text)
}

fn main(rt: HostRuntime) -> ExitCode {
    let Some(text) = text(&rt) else {
        return ExitCode::from(1);
    };
    match tell(&rt, &text) {
        Ok(()) => ExitCode::from(0),
        Err(_) => ExitCode::from(1),
    }
}
