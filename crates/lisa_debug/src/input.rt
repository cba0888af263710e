// Sessions over an input, which is taken in pieces.
ghost use Rattle.std.specs.Prelude.{◌≡◌, ◌⊎◌, ◌<◌, ◌≤◌, ◌+◌, ◌++◌, ◌∷◌, [], ℕ, List, Option, Some, IfOk, IfErr, OnOk, OnErr, length, take};
ghost use Rattle.std.specs.Io.KnownBytes.{Appends, Consumes, IsAtEnd, Keeps};
ghost use Rattle.lisa_io.specs.Causes.{Rose};
ghost use Rattle.lisa_engine.specs.PinValues.{IsFor};
ghost use Rattle.lisa_engine.specs.Machines.{Course, course_of};
ghost use Rattle.lisa_debug.specs.Kept.{IsLive};
ghost use Rattle.lisa_debug.specs.Sessions.{answers, whole_lines};
ghost use Rattle.lisa_debug.specs.declared.command.Go.TheVariants.{On};
ghost use Rattle.lisa_debug.specs.Taking.{Stands, Takes, Finishes, HasFault};
ghost use Rattle.lisa_debug.specs.Runs.{Ran, Gives, HasCauses, IsSent};

use crate::command::Go;
use crate::ends::SessionEnd;
use crate::session::Session;
use lisa_engine::{Engine, Schedule, TraceEnd};
use lisa_io::{Flush, Sink, Source};
use std::alloc::Global;

// How many bytes of input a session takes at most.
const MOST_INPUT: usize = 1_048_576;

// How many bytes are taken at once.
const PIECE: usize = 4_096;

// Answers the line that is kept, and forgets it.
fn end_line<E: Engine + Drop, O: Sink>(
    session: &mut Session<E>,
    line: &mut Vec<u8>,
    out: &mut O,
) -> Result<Go, TraceEnd>
    requires { IsLive (course_of (E.machine session.old.engine) session.old.schedule)
        (E.present session.old.engine) session.old.journal }
    ensures takes { let before = course_of (E.machine session.old.engine) session.old.schedule in
        let now = course_of (E.machine session.new.engine) session.new.schedule in
        (course : Course) (start : Option (List ℕ)) (taken : List ℕ) → Stands course before (E.present session.old.engine) session.old.journal line.old.items taken
        → Appends start (O.written out.old) (answers course (whole_lines taken)).text
        → Takes course now (E.present session.new.engine) session.new.journal line.new.items (taken ++ 10 ∷ []) start (O.written out.new) result }
    ensures live { OnOk result (IsLive (course_of (E.machine session.new.engine) session.new.schedule)
        (E.present session.new.engine) session.new.journal) }
    ensures fault { HasFault (O.faults out.old) (O.faults out.new) result }
{
    let go = session.line(line, out)?;
    line.clear();
    Ok(go)
}

fn keep_byte(line: &mut Vec<u8>, byte: u8) -> Result<Go, TraceEnd>
    ensures kept { OnOk result (line.new.items ≡ line.old.items ++ byte ∷ []) }
    ensures on { IfOk result (λ go. go ≡ On) }
    ensures memory { IfErr result (λ e. e ≡ TraceEnd.NoMemory) }
{
    match line.push(byte) {
        Ok(()) => Ok(Go::On),
        Err(_) => Err(TraceEnd::NoMemory),
    }
}

// Takes one more byte: a line feed ends the line, and any other byte is kept.
fn take_byte<E: Engine + Drop, O: Sink>(
    session: &mut Session<E>,
    line: &mut Vec<u8>,
    byte: u8,
    out: &mut O,
) -> Result<Go, TraceEnd>
    requires { IsLive (course_of (E.machine session.old.engine) session.old.schedule)
        (E.present session.old.engine) session.old.journal }
    ensures takes { let before = course_of (E.machine session.old.engine) session.old.schedule in
        let now = course_of (E.machine session.new.engine) session.new.schedule in
        (course : Course) (start : Option (List ℕ)) (taken : List ℕ) → Stands course before (E.present session.old.engine) session.old.journal line.old.items taken
        → Appends start (O.written out.old) (answers course (whole_lines taken)).text
        → Takes course now (E.present session.new.engine) session.new.journal line.new.items (taken ++ byte ∷ []) start (O.written out.new) result }
    ensures live { OnOk result (IsLive (course_of (E.machine session.new.engine) session.new.schedule)
        (E.present session.new.engine) session.new.journal) }
    ensures fault { HasFault (O.faults out.old) (O.faults out.new) result }
{
    if byte == b'\n' {
        return end_line(session, line, out);
    }
    keep_byte(line, byte)
}

// Takes bytes up to the end of a `quit` line.
fn take_bytes<E: Engine + Drop, O: Sink>(
    session: &mut Session<E>,
    line: &mut Vec<u8>,
    bytes: &[u8],
    out: &mut O,
) -> Result<Go, TraceEnd>
    requires { IsLive (course_of (E.machine session.old.engine) session.old.schedule)
        (E.present session.old.engine) session.old.journal }
    ensures takes { let before = course_of (E.machine session.old.engine) session.old.schedule in
        let now = course_of (E.machine session.new.engine) session.new.schedule in
        (course : Course) (start : Option (List ℕ)) (taken : List ℕ) → Stands course before (E.present session.old.engine) session.old.journal line.old.items taken
        → Appends start (O.written out.old) (answers course (whole_lines taken)).text
        → Takes course now (E.present session.new.engine) session.new.journal line.new.items (taken ++ bytes.now) start (O.written out.new) result }
    ensures live { OnOk result (IsLive (course_of (E.machine session.new.engine) session.new.schedule)
        (E.present session.new.engine) session.new.journal) }
    ensures fault { HasFault (O.faults out.old) (O.faults out.new) result }
{
    for byte in bytes {
        match take_byte(session, line, *byte, out)? {
            Go::On => {}
            Go::Quit => return Ok(Go::Quit),
        }
    }
    Ok(Go::On)
}

// Answers the bytes behind the last line feed, where there are any.
fn answer_rest<E: Engine + Drop, O: Sink>(
    session: &mut Session<E>,
    line: &[u8],
    out: &mut O,
) -> Result<(), TraceEnd>
    requires { IsLive (course_of (E.machine session.old.engine) session.old.schedule)
        (E.present session.old.engine) session.old.journal }
    ensures finishes { let before = course_of (E.machine session.old.engine) session.old.schedule in
        (course : Course) (start : Option (List ℕ)) (taken : List ℕ) → Stands course before (E.present session.old.engine) session.old.journal line.now taken
        → Appends start (O.written out.old) (answers course (whole_lines taken)).text
        → Finishes course taken start (O.written out.new) result }
    ensures fault { HasFault (O.faults out.old) (O.faults out.new) result }
{
    if line.is_empty() {
        return Ok(());
    }
    session.line(line, out)?;
    Ok(())
}

// Sends on what was put.
fn flush_out<O: Flush>(out: &mut O) -> Result<(), SessionEnd>
    ensures written { Keeps (O.written out.old) (O.written out.new) }
    ensures sent { OnOk result (O.sent out.new ≡ O.written out.new) }
    ensures ends { IfErr result (λ e. e ≡ SessionEnd.WriteFault) }
    ensures later { O.faults out.old ≤ O.faults out.new }
    ensures fault { OnErr result (Rose (O.faults out.old) (O.faults out.new)) }
{
    match out.flush() {
        Ok(()) => Ok(()),
        Err(_) => Err(SessionEnd::WriteFault),
    }
}

// Sends on what was put, and then takes some bytes of the input, as many as there is room for or fewer.
fn take_piece<I: Source, O: Flush>(
    input: &mut I,
    out: &mut O,
    piece: &mut [u8],
    room: usize,
) -> Result<usize, SessionEnd>
    requires { room ≤ length piece.old }
    ensures bound { IfOk result (λ count. count ≤ room) }
    ensures same_length { length piece.new ≡ length piece.old }
    ensures bytes { IfOk result (λ count. Consumes (I.left input.old) (I.left input.new) (take count piece.new)) }
    ensures end { 0 < room → IfOk result (λ count. count ≡ 0 → IsAtEnd (I.left input.new)) }
    ensures left { OnErr result (Keeps (I.left input.old) (I.left input.new)) }
    ensures written { Keeps (O.written out.old) (O.written out.new) }
    ensures ends { IfErr result (λ e. (e ≡ SessionEnd.ReadFault) ⊎ (e ≡ SessionEnd.WriteFault)) }
    ensures sent { IsSent (O.sent out.new) (O.written out.new) result }
    ensures causes { HasCauses (I.faults input.old) (I.faults input.new) (O.faults out.old) (O.faults out.new) result }
{
    flush_out(out)?;
    match input.take(&mut piece[..room]) {
        Ok(count) => Ok(count),
        Err(_) => Err(SessionEnd::ReadFault),
    }
}

// Answers the bytes behind the last line feed, and sends on what was put.
fn finish<E: Engine + Drop, O: Flush>(
    session: &mut Session<E>,
    line: &[u8],
    out: &mut O,
) -> Result<(), SessionEnd>
    requires { IsLive (course_of (E.machine session.old.engine) session.old.schedule)
        (E.present session.old.engine) session.old.journal }
    ensures finishes { let before = course_of (E.machine session.old.engine) session.old.schedule in
        (course : Course) (start : Option (List ℕ)) (taken : List ℕ) → Stands course before (E.present session.old.engine) session.old.journal line.now taken
        → Appends start (O.written out.old) (answers course (whole_lines taken)).text
        → Finishes course taken start (O.written out.new) result }
    ensures sent { OnOk result (O.sent out.new ≡ O.written out.new) }
    ensures ends { IfErr result (λ e. (e ≡ SessionEnd.NoMemory) ⊎ (e ≡ SessionEnd.WriteFault)) }
    ensures later { O.faults out.old ≤ O.faults out.new }
    ensures fault { IfErr result (λ e. e ≡ SessionEnd.WriteFault → Rose (O.faults out.old) (O.faults out.new)) }
{
    answer_rest(session, line, out)?;
    flush_out(out)
}

// Answers the lines of the input, piece by piece, to its end or to `quit`.
fn answer_lines<E: Engine + Drop, I: Source, O: Flush>(
    alloc: Global,
    session: &mut Session<E>,
    input: &mut I,
    out: &mut O,
) -> Result<(), SessionEnd>
    requires live { IsLive (course_of (E.machine session.old.engine) session.old.schedule)
        (E.present session.old.engine) session.old.journal }
    requires first { length session.old.journal.entries.items ≡ 0 }
    ensures ran { Ran (course_of (E.machine session.old.engine) session.old.schedule)
        (I.left input.old) (I.left input.new) (O.written out.old) (O.written out.new) result }
    ensures sent { IsSent (O.sent out.new) (O.written out.new) result }
    ensures causes { HasCauses (I.faults input.old) (I.faults input.new) (O.faults out.old) (O.faults out.new) result }
{
    let mut line = Vec::new(alloc);
    let mut piece = [0; PIECE];
    let mut taken = 0;
    while taken <= MOST_INPUT {
        let room = (MOST_INPUT + 1 - taken).min(PIECE);
        let count = take_piece(input, out, &mut piece, room)?;
        if count == 0 {
            return finish(session, &line, out);
        }
        taken += count;
        match take_bytes(session, &mut line, &piece[..count], out)? {
            Go::On => {}
            Go::Quit => return flush_out(out),
        }
    }
    flush_out(out)?;
    Err(SessionEnd::TooLong)
}

/// Steps an engine by the lines of an input, and puts the answer to each.
///
/// All whole lines that were taken are answered, and the answers sent on, before more input is taken; so a person at a
/// terminal sees each answer at once. Bytes behind the last line feed are one more line. A `quit` ends the session,
/// whatever follows.
pub fn answer_input<E: Engine + Drop, I: Source, O: Flush>(
    alloc: Global,
    engine: E,
    schedule: Schedule,
    input: &mut I,
    out: &mut O,
) -> Result<(), SessionEnd>
    requires first { E.present engine ≡ (E.machine engine).defined [] }
    requires schedule { IsFor (E.machine engine).pins schedule }
    // What it gives of any input, and of one whose bytes are told.
    ensures ran { Ran (course_of (E.machine engine) schedule)
        (I.left input.old) (I.left input.new) (O.written out.old) (O.written out.new) result }
    ensures gives { (bytes : List ℕ) → I.left input.old ≡ Some bytes
        → Gives (course_of (E.machine engine) schedule) bytes (O.written out.old) (O.written out.new) result }
    ensures sent { IsSent (O.sent out.new) (O.written out.new) result }
    ensures causes { HasCauses (I.faults input.old) (I.faults input.new) (O.faults out.old) (O.faults out.new) result }
{
    match Session::make(alloc, engine, schedule) {
        Ok(mut session) => answer_lines(alloc, &mut session, input, out),
        Err(_) => Err(SessionEnd::NoMemory),
    }
}
