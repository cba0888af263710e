//! An engine on a board.
ghost use Rattle.std.specs.Prelude.{◌≡◌, ◌≤◌, ◌<◌, ◌^◌, [], Some, IfOk, length};
ghost use Rattle.std.specs.Io.KnownBytes.{Appends};
ghost use Rattle.lisa_io.specs.Causes.{Rose};
ghost use Rattle.lisa_board.specs.Boards.{IsBoardFor};
ghost use Rattle.lisa_board.specs.Runs.{output};
ghost use Rattle.lisa_outcomes.specs.Ends.{Ends};
ghost use Rattle.lisa_outcomes.specs.Stages.{Finds};
ghost use Rattle.lisa_outcomes.specs.Writes.{Writes};
ghost use Rattle.engine_commands.specs.Boards.{IsBoard, IsNoBoard, board_outcome};
ghost use Rattle.engine_commands.specs.declared.tasks.Task.TheVariants as tasks;
ghost use Rattle.engine_commands.specs.Tasks.{IsHeard, GivesUnder, HasFailed, IsCutUnder, IsSmall};
ghost use Rattle.engine_commands.specs.Unread.{unread_board, unread_input};

use crate::inputs::take_whole;
use lisa_board::{Board, BoardFault, read_board, run_board};
use lisa_engine::{Engine, Item};
use lisa_io::{ReadEnd, Sink, Source, put_all};
use lisa_outcomes::{End, InputFault, Refusal};
use std::alloc::Global;

// The most bytes of the input of a board.
const INPUT_LIMIT: u32 = 1_048_576;

// The end of a command whose board wasn't read.
fn unread(fault: BoardFault) -> End
    ensures { result ≡ unread_board fault }
{
    match fault {
        BoardFault::NoMemory => End::NoMemory,
        other => End::Refused(Refusal::Board(other)),
    }
}

// The end of a command whose input wasn't read.
fn unheard(end: ReadEnd) -> End
    ensures { result ≡ unread_input end }
{
    match end {
        ReadEnd::ReadFault => End::ReadFault,
        ReadEnd::TooLong => End::Refused(Refusal::Input(InputFault::TooLong {})),
        ReadEnd::NoMemory => End::NoMemory,
    }
}

// The board that bytes write for these items and pins.
fn board_for(alloc: Global, bytes: &[u8], items: &[Item], pins: &[Item]) -> Result<Board, End>
    requires bytes { length bytes.now < 2 ^ 32 }
    requires items { length items.now < 2 ^ 32 }
    requires pins { length pins.now < 2 ^ 32 }
    ensures finds { Finds (λ board. board) (IsBoard items.now pins.now bytes.now) (IsNoBoard items.now pins.now bytes.now) result }
    ensures fits { IfOk result (IsBoardFor items.now pins.now) }
{
    match read_board(alloc, bytes, items, pins) {
        Ok(board) => Ok(board),
        Err(fault) => Err(unread(fault)),
    }
}

// Writes what the console prints in some edges, with this input.
fn put_printed<E: Engine, O: Sink>(
    alloc: Global,
    engine: &mut E,
    board: &Board,
    input: &[u8],
    edges: u32,
    out: &mut O,
) -> Result<(), End>
    requires board { IsBoardFor (E.machine engine.old).items (E.machine engine.old).pins board.now }
    requires first { E.present engine.old ≡ (E.machine engine.old).defined [] }
    ensures { Writes (O.written out.old) (O.written out.new) (O.faults out.old) (O.faults out.new) result
        (output (E.machine engine.old) board.now input.now edges) }
{
    let printed = match run_board(alloc, board, engine, input, edges) {
        Ok(printed) => printed,
        Err(_) => return Err(End::NoMemory),
    };
    match put_all(out, &printed) {
        Ok(()) => Ok(()),
        Err(_) => Err(End::WriteFault),
    }
}

// Takes the input whole, and then writes what the console of a board prints in some edges with it.
fn print_board<E: Engine, I: Source, O: Sink>(
    alloc: Global,
    engine: &mut E,
    board: &Board,
    edges: u32,
    input: &mut I,
    out: &mut O,
) -> Result<(), End>
    requires board { IsBoardFor (E.machine engine.old).items (E.machine engine.old).pins board.now }
    requires first { E.present engine.old ≡ (E.machine engine.old).defined [] }
    ensures ends { let machine = E.machine engine.old in
        Ends (λ bytes. I.left input.old ≡ Some bytes) (λ bytes outcome. outcome ≡ board_outcome machine board.now edges bytes)
        (Rose (I.faults input.old) (I.faults input.new) × Appends (O.written out.old) (O.written out.new) [])
        (O.written out.old) (O.written out.new) (O.faults out.old) (O.faults out.new) result }
    ensures later { I.faults input.old ≤ I.faults input.new }
{
    match take_whole(alloc, input, INPUT_LIMIT) {
        Ok(bytes) => put_printed(alloc, engine, board, &bytes, edges, out),
        Err(end) => Err(unheard(end)),
    }
}

/// Writes what the console prints in some edges on the board that bytes write: the board is read first, and then the input whole.
pub fn play_board<E: Engine, I: Source, O: Sink>(
    alloc: Global,
    engine: &mut E,
    bytes: &[u8],
    edges: u32,
    input: &mut I,
    out: &mut O,
) -> Result<(), End>
    requires first { E.present engine.old ≡ (E.machine engine.old).defined [] }
    requires few { IsSmall (E.machine engine.old) }
    requires short { length bytes.now < 2 ^ 32 }
    ensures ends { let machine = E.machine engine.old in
        Ends (IsHeard (tasks.Board edges) (I.left input.old)) (GivesUnder (tasks.Board edges) machine bytes.now)
        (HasFailed (tasks.Board edges) (I.faults input.old) (I.faults input.new)
        × IsCutUnder (tasks.Board edges) machine bytes.now (I.left input.old) (I.left input.new) (O.written out.old) (O.written out.new))
        (O.written out.old) (O.written out.new) (O.faults out.old) (O.faults out.new) result }
    ensures later { I.faults input.old ≤ I.faults input.new }
{
    match board_for(alloc, bytes, engine.items(), engine.pins()) {
        Ok(board) => print_board(alloc, engine, &board, edges, input, out),
        Err(end) => Err(end),
    }
}
