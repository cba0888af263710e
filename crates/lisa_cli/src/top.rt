//! The top call.
ghost use Rattle.std.specs.Prelude.{◌≡◌, map, string_bytes};
ghost use Rattle.lisa_cli.specs.Headline.{IsAnswer};
ghost use Rattle.lisa_cli.specs.Worlds.{world, readings, writings};
ghost use Rattle.lisa_cli.specs.Statuses.{status_of};

use crate::commands::perform;
use crate::sending::sent_on;
use command_words::request;
use lisa_io::{Files, Flush, Sink, Source};
use lisa_outcomes::{End, Status};
use refusal_lines::tell;
use std::alloc::Global;

// The status of a command's end.
fn status_of(end: Result<(), End>) -> Status
    ensures { result ≡ status_of end }
{
    match end {
        Ok(()) => Status::Done,
        Err(End::Refused(refusal)) => Status::Refused(refusal),
        Err(End::ReadFault) => Status::ReadFault,
        Err(End::WriteFault) => Status::WriteFault,
        Err(End::NoMemory) => Status::NoMemory,
    }
}

/// Does what the words say, writes what that gives to `out`, tells on `err` what else there is to tell, and answers how it
/// went.
///
/// The words are those after the program's name.
pub fn lisa<F: Files, I: Source, O: Flush, E: Sink>(
    alloc: Global,
    words: &[String],
    files: &mut F,
    input: &mut I,
    out: &mut O,
    err: &mut E,
) -> Status
    ensures { let reads = readings (F.held files.old) (F.held files.new) (F.faults files.old) (F.faults files.new) (I.left input.old) (I.left input.new) (I.faults input.old) (I.faults input.new) in
        let writes = writings (O.written out.old) (O.written out.new) (O.sent out.new) (O.faults out.old) (O.faults out.new) (E.written err.old) (E.written err.new) (E.faults err.old) (E.faults err.new) in
        IsAnswer (world reads writes) (map string_bytes words.now) result }
{
    match request(words) {
        None => tell(Status::Usage, err),
        Some(command) => {
            let end = perform(alloc, &command, files, input, out);
            tell(status_of(sent_on(end, out)), err)
        }
    }
}
