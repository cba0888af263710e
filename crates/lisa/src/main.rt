//! The program: the real files and streams, and the exit status of each way to end.
#![tactic(auto)]

use lisa_cli::{Status, lisa, tell_no_memory};
use lisa_io::{Buffered, HostFiles, HostSink, HostSource};
use std::process::ExitCode;
use std::{env, io};

// How many bytes of output are gathered before they are sent on.
const ROOM: usize = 65_536;

// The exit status of a way to end.
fn exit_status(status: Status) -> u8 {
    match status {
        Status::Done => 0,
        Status::Refused(_) => 1,
        Status::Usage => 2,
        Status::ReadFault => 3,
        Status::WriteFault => 4,
        Status::NoMemory => 5,
    }
}

// The words after the program's name; none at all where one of them is no text. It is `None` where memory was wanted for them.
fn command_words(rt: &HostRuntime) -> Option<Vec<String>> {
    let mut args = match env::args(rt) {
        Ok(args) => args,
        Err(error) => {
            if error.kind() == io::ErrorKind::OutOfMemory {
                return None;
            }
            return Some(Vec::new(rt.alloc()));
        }
    };
    let _ = args.next();
    args.collect(rt.alloc()).ok()
}

fn main(rt: HostRuntime) -> ExitCode {
    let mut err = HostSink::new(rt.stderr());
    let Some(words) = command_words(&rt) else {
        return ExitCode::from(exit_status(tell_no_memory(&mut err)));
    };
    let mut files = HostFiles::new(rt.alloc(), &rt);
    let mut input = HostSource::new(rt.stdin());
    let room = vec![in rt.alloc(); 0; ROOM].unwrap_or(Vec::new(rt.alloc()));
    let mut out = Buffered::new(HostSink::new(rt.stdout()), room);
    let status = lisa(
        rt.alloc(),
        &words,
        &mut files,
        &mut input,
        &mut out,
        &mut err,
    );
    ExitCode::from(exit_status(status))
}
