//! Reads a source, an object or an image, and says how many lines or cells it has. The bench of these readers runs it.
#![tactic(auto)]

ghost use Rattle.std.specs.Prelude.{◌≤◌, length};

use asm_source::read_source;
use lisa_io::{Failed, HostFiles, HostSink, put_all, read_whole};
use lisa_object::{read_image, read_object};
use lisa_words::decimal;
use std::alloc::Global;
use std::env;
use std::process::ExitCode;

// The most bytes of a file.
const LIMIT: u64 = 134_217_728;

// How many lines a source has.
fn source_lines(alloc: Global, bytes: &[u8]) -> Option<usize>
    requires { length bytes.now ≤ 134217728 }
{
    Some(read_source(alloc, bytes).ok()?.len())
}

// How many lines an object has.
fn object_lines(alloc: Global, bytes: &[u8]) -> Option<usize>
    requires { length bytes.now ≤ 134217728 }
{
    Some(read_object(alloc, bytes, 1).ok()?.lines.len())
}

// How many cells an image has.
fn image_cells(alloc: Global, bytes: &[u8]) -> Option<usize>
    requires { length bytes.now ≤ 134217728 }
{
    let read = read_image(alloc, bytes).ok()?;
    let mut cells: usize = 0;
    for memory in &read.image.memories {
        cells = cells.saturating_add(memory.cells.len());
    }
    Some(cells)
}

// What the bytes hold, read as what the word says; nothing where they aren't read.
fn counted(alloc: Global, word: &str, bytes: &[u8]) -> Option<usize>
    requires { length bytes.now ≤ 134217728 }
{
    match word {
        "source" => source_lines(alloc, bytes),
        "object" => object_lines(alloc, bytes),
        "image" => image_cells(alloc, bytes),
        _ => None,
    }
}

// Reads the file that the words name.
fn held(rt: &HostRuntime) -> Option<usize> {
    let mut args = env::args(rt).ok()?;
    let _ = args.next();
    let word = args.next()?;
    let name = args.next()?;
    let mut files = HostFiles::new(rt.alloc(), rt);
    let bytes = read_whole(rt.alloc(), &mut files, name.as_str(), LIMIT).ok()?;
    counted(rt.alloc(), word.as_str(), &bytes)
}

// Writes a number and a line feed.
fn tell(rt: &HostRuntime, count: usize) -> Result<(), Failed> {
    let mut digits = [0; 20];
    let len = decimal(count as u64, &mut digits);
    let mut out = HostSink::new(rt.stdout());
    put_all(&mut out, &digits[..len])?;
    put_all(&mut out, b"\n")
}

fn main(rt: HostRuntime) -> ExitCode {
    let Some(count) = held(&rt) else {
        return ExitCode::from(1);
    };
    match tell(&rt, count) {
        Ok(()) => ExitCode::from(0),
        Err(_) => ExitCode::from(1),
    }
}
