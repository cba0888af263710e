//! The commands, each by the bytes that it reads.
ghost use Rattle.std.specs.Prelude.{◌≡◌, ◌≤◌, ◌<◌, ◌^◌, false, List, ℕ, map, length, drop};
ghost use Rattle.lisa_outcomes.specs.Ends.{Ends};
ghost use Rattle.lisa_outcomes.specs.NamedFiles.{file_at};
ghost use Rattle.command_words.specs.Requests.{reads_input};
ghost use Rattle.lisa_cli.specs.Files.{files_of};
ghost use Rattle.command_words.specs.Asked.{request_of};
ghost use Rattle.lisa_cli.specs.Gives.{Gives, GivesOver};
ghost use Rattle.lisa_cli.specs.Worlds.{readings, IsGiven, IsHeard, HasFailed, IsCutOver, Blamed};

use crate::files::files_of;
use command_words::Command;
use generator_commands::{
    assemble_source, check_description, count_stages, do_with_description, do_with_module,
    format_description, link_objects, list_image, replay_waves, soak, write_program,
};
use lisa_io::{Files, Flush, Source};
use lisa_outcomes::{End, file_at, load_files, run_bytes};
use memory_commands::{export_memory, import_memory};
use std::alloc::Global;
use verilog_command::write_verilog;

// The files behind the first.
fn behind(all: &[Vec<u8>]) -> &[Vec<u8>]
    ensures { result.now ≡ drop 1 all.now }
{
    let [_, rest @ ..] = all else {
        return all;
    };
    rest
}

// Does what a command asks for, over the bytes of its files.
fn perform_with<I: Source, O: Flush>(
    alloc: Global,
    command: &Command<'_>,
    all: &[Vec<u8>],
    input: &mut I,
    out: &mut O,
) -> Result<(), End>
    requires short { (place : ℕ) → length (file_at (map (λ bytes. bytes.items) all.now) place) < 2 ^ 32 }
    requires few { length all.now < 2 ^ 32 }
    ensures ends { Ends (IsHeard (request_of command.now) (I.left input.old)) (GivesOver (request_of command.now) (map (λ bytes. bytes.items) all.now))
        (HasFailed (request_of command.now) (I.faults input.old) (I.faults input.new)
        × IsCutOver (request_of command.now) (map (λ bytes. bytes.items) all.now) (I.left input.old) (I.left input.new) (O.written out.old) (O.written out.new))
        (O.written out.old) (O.written out.new) (O.faults out.old) (O.faults out.new) result }
    ensures input { reads_input (request_of command.now) ≡ false → (I.left input.new ≡ I.left input.old) × (I.faults input.new ≡ I.faults input.old) }
    ensures later { I.faults input.old ≤ I.faults input.new }
{
    let first = file_at(all, 0);
    let second = file_at(all, 1);
    match command {
        Command::Format { .. } => format_description(alloc, first, out),
        Command::Check { .. } => check_description(alloc, first, out),
        Command::Verilog { .. } => write_verilog(alloc, first, out),
        Command::Assemble { .. } => assemble_source(alloc, first, second, out),
        Command::Link { .. } => link_objects(alloc, first, behind(all), out),
        Command::Disassemble { .. } => list_image(alloc, first, second, out),
        Command::Generate { number, count, .. } => {
            write_program(alloc, first, *number, *count, out)
        }
        Command::Soak {
            number,
            count,
            edges,
            ..
        } => soak(alloc, first, second, *number, *count, *edges, out),
        Command::Export { format, memory, .. } => {
            export_memory(alloc, *format, first, second, memory, out)
        }
        Command::Import { format, memory, .. } => {
            import_memory(alloc, *format, first, second, memory, out)
        }
        Command::Replay { .. } => replay_waves(alloc, first, out),
        Command::Occupancy { names, edges } => {
            count_stages(alloc, &run_bytes(*names, all), *edges, out)
        }
        Command::Simulate { names, task } => {
            do_with_description(alloc, &run_bytes(*names, all), *task, input, out)
        }
        Command::Clock { names, task } => {
            do_with_module(alloc, &run_bytes(*names, all), *task, input, out)
        }
    }
}

/// Does what a command asks for, and writes what it gives: its files are read first, in the order of the words.
pub fn perform<F: Files, I: Source, O: Flush>(
    alloc: Global,
    command: &Command<'_>,
    files: &mut F,
    input: &mut I,
    out: &mut O,
) -> Result<(), End>
    requires few { length (files_of (request_of command.now)) < 2 ^ 32 }
    ensures ends { Ends (IsGiven (F.held files.old) (I.left input.old) (request_of command.now)) (λ given. Gives given (request_of command.now))
        (Blamed (readings (F.held files.old) (F.held files.new) (F.faults files.old) (F.faults files.new) (I.left input.old) (I.left input.new) (I.faults input.old) (I.faults input.new))
        (O.written out.old) (O.written out.new) (request_of command.now))
        (O.written out.old) (O.written out.new) (O.faults out.old) (O.faults out.new) result }
    ensures input { reads_input (request_of command.now) ≡ false → (I.left input.new ≡ I.left input.old) × (I.faults input.new ≡ I.faults input.old) }
    ensures held { F.held files.new ≡ F.held files.old }
    ensures files { (other : List ℕ) → F.faults files.old other ≤ F.faults files.new other }
    ensures later { I.faults input.old ≤ I.faults input.new }
{
    let named = match files_of(alloc, command) {
        Ok(named) => named,
        Err(_) => return Err(End::NoMemory),
    };
    match load_files(alloc, files, &named) {
        Ok(all) => perform_with(alloc, command, &all, input, out),
        Err(end) => Err(end),
    }
}
