//! The files of a command.
ghost use Rattle.std.specs.Prelude.{◌≡◌, ◌∷◌, ◌++◌, [], option_map, IfOk, OnOk, map, string_bytes};
ghost use Rattle.lisa_outcomes.specs.FileViews.{named_of};
ghost use Rattle.lisa_outcomes.specs.NamedFiles.{named};
ghost use Rattle.lisa_outcomes.specs.RunFiles.{any_file, run_files};
ghost use Rattle.lisa_outcomes.specs.RunViews.{names_of};
ghost use Rattle.verilog_command.specs.checked_descriptions.Descriptions.{description_limit};
ghost use Rattle.generator_commands.specs.assembler_commands.Links.{object_limit};
ghost use Rattle.lisa_cli.specs.Files.{files_of};
ghost use Rattle.command_words.specs.Asked.{request_of};

use command_words::Command;
use lisa_outcomes::{NamedFile, RunNames};
use lisa_words::NoMemory;
use std::alloc::Global;

const DESCRIPTION_LIMIT: u32 = 1_048_576;

const MODULE_LIMIT: u32 = 134_217_728;

const SOURCE_LIMIT: u32 = 4_194_304;

const OBJECT_LIMIT: u32 = 50_331_648;

const IMAGE_LIMIT: u32 = 134_217_728;

const SCHEDULE_LIMIT: u32 = 1_048_576;

const MEMORY_FILE_LIMIT: u32 = 134_217_728;

const DUMP_LIMIT: u32 = 134_217_728;

// One more file, where one is named.
fn push_file<'a>(
    files: &mut Vec<NamedFile<'a>>,
    name: Option<&'a str>,
    limit: u32,
) -> Result<(), NoMemory>
    ensures { OnOk result (map named_of files.new.items ≡ map named_of files.old.items ++ any_file (option_map (λ n. n.now) name.entry) limit) }
{
    let Some(name) = name else {
        return Ok(());
    };
    match files.push(NamedFile { name, limit }) {
        Ok(()) => Ok(()),
        Err(_) => Err(NoMemory),
    }
}

// One file.
fn one_file<'a>(alloc: Global, name: &'a str, limit: u32) -> Result<Vec<NamedFile<'a>>, NoMemory>
    ensures { IfOk result (λ files. map named_of files.items ≡ named name.now limit ∷ []) }
{
    let mut files = Vec::new(alloc);
    match push_file(&mut files, Some(name), limit) {
        Ok(()) => Ok(files),
        Err(_) => Err(NoMemory),
    }
}

// The files of a description and of another that is read by it.
fn two_files<'a>(
    alloc: Global,
    description: &'a str,
    other: &'a str,
    limit: u32,
) -> Result<Vec<NamedFile<'a>>, NoMemory>
    ensures { IfOk result (λ files. map named_of files.items ≡ named description.now description_limit ∷ named other.now limit ∷ []) }
{
    let mut files = Vec::new(alloc);
    match push_file(&mut files, Some(description), DESCRIPTION_LIMIT) {
        Ok(()) => {}
        Err(_) => return Err(NoMemory),
    }
    match push_file(&mut files, Some(other), limit) {
        Ok(()) => Ok(files),
        Err(_) => Err(NoMemory),
    }
}

// The files of a description and of objects.
fn object_files<'a>(
    alloc: Global,
    description: &'a str,
    objects: &'a [String],
) -> Result<Vec<NamedFile<'a>>, NoMemory>
    ensures { IfOk result (λ files. map named_of files.items ≡ named description.now description_limit ∷ map (λ object. named object object_limit) (map string_bytes objects.now)) }
{
    let mut files = Vec::new(alloc);
    match push_file(&mut files, Some(description), DESCRIPTION_LIMIT) {
        Ok(()) => {}
        Err(_) => return Err(NoMemory),
    }
    for object in objects {
        match push_file(&mut files, Some(object.as_str()), OBJECT_LIMIT) {
            Ok(()) => {}
            Err(_) => return Err(NoMemory),
        }
    }
    Ok(files)
}

// The files of a run, of which the first has this limit.
fn run_files<'a>(
    alloc: Global,
    names: RunNames<'a>,
    limit: u32,
) -> Result<Vec<NamedFile<'a>>, NoMemory>
    ensures { IfOk result (λ files. map named_of files.items ≡ run_files (names_of names.entry) limit) }
{
    let mut files = Vec::new(alloc);
    match push_file(&mut files, Some(names.main), limit) {
        Ok(()) => {}
        Err(_) => return Err(NoMemory),
    }
    match push_file(&mut files, names.image, IMAGE_LIMIT) {
        Ok(()) => {}
        Err(_) => return Err(NoMemory),
    }
    match push_file(&mut files, names.schedule, SCHEDULE_LIMIT) {
        Ok(()) => Ok(files),
        Err(_) => Err(NoMemory),
    }
}

/// The files that a command reads, in order.
pub fn files_of<'a>(alloc: Global, command: &Command<'a>) -> Result<Vec<NamedFile<'a>>, NoMemory>
    ensures { IfOk result (λ files. map named_of files.items ≡ files_of (request_of command.now)) }
{
    match command {
        Command::Format { description } => one_file(alloc, description, DESCRIPTION_LIMIT),
        Command::Check { description } => one_file(alloc, description, DESCRIPTION_LIMIT),
        Command::Verilog { description } => one_file(alloc, description, DESCRIPTION_LIMIT),
        Command::Assemble {
            description,
            source,
        } => two_files(alloc, description, source, SOURCE_LIMIT),
        Command::Link {
            description,
            objects,
        } => object_files(alloc, description, objects),
        Command::Disassemble { description, image } => {
            two_files(alloc, description, image, IMAGE_LIMIT)
        }
        Command::Generate { description, .. } => one_file(alloc, description, DESCRIPTION_LIMIT),
        Command::Soak {
            description,
            verilog,
            ..
        } => two_files(alloc, description, verilog, MODULE_LIMIT),
        Command::Export {
            description,
            image,
            ..
        } => { two_files(alloc, description, image, IMAGE_LIMIT) }
        Command::Import {
            description,
            file,
            ..
        } => { two_files(alloc, description, file, MEMORY_FILE_LIMIT) }
        Command::Replay { dump } => one_file(alloc, dump, DUMP_LIMIT),
        Command::Occupancy { names, .. } => run_files(alloc, *names, DESCRIPTION_LIMIT),
        Command::Simulate { names, .. } => run_files(alloc, *names, DESCRIPTION_LIMIT),
        Command::Clock { names, .. } => run_files(alloc, *names, MODULE_LIMIT),
    }
}
