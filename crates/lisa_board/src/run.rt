// Machines on a board.
ghost use Rattle.std.specs.Prelude.{◌≡◌, ◌<◌, ◌≤◌, [], ℕ, List, IfOk, IfSome, OnOk, All, length, map};
ghost use Rattle.lisa_board.specs.Boards.{IsBoardFor};
ghost use Rattle.lisa_board.specs.Feeding.{counter_after, offers, feed};
ghost use Rattle.lisa_board.specs.Runs.{fed_entries, output};
ghost use Rattle.lisa_board.specs.Kept.{offered_by};

use crate::board::Board;
use crate::console::{first_port, look_again, offer_byte};
use crate::timers::{Counter, set_pulses, tick_all};
use lisa_engine::Engine;
use lisa_words::NoMemory;
use std::alloc::Global;

// Gives the pins the values of the next edge.
fn set_pins(board: &Board, counters: &[Counter], rest: &[u8], pins: &mut [u64])
    requires timers { All (λ timer. timer.pin < length pins.old) board.now.timers }
    requires byte { IfSome board.now.console (λ c. c.byte < length pins.old) }
    requires valid { IfSome board.now.console (λ c. c.valid < length pins.old) }
    requires counters { length counters.now ≡ length board.now.timers }
    requires room { length pins.old ≡ board.now.pins }
    ensures { (input : List ℕ) (rows : List (List ℕ)) → counters.now ≡ map (λ timer. counter_after timer rows) board.now.timers
        → offered_by board.now.console rest.now ≡ offers board.now.console input rows → pins.new ≡ feed board.now input rows }
{
    pins.fill(0);
    set_pulses(&board.timers, counters, pins);
    offer_byte(board.console, rest, pins);
}

// Makes the edges 1 to `count`, and appends what the console prints.
fn make_edges<E: Engine>(
    board: &Board,
    engine: &mut E,
    input: &[u8],
    count: u32,
    counters: &mut [Counter],
    pins: &mut [u64],
    printed: &mut Vec<u8>,
) -> Result<(), NoMemory>
    requires board { IsBoardFor (E.machine engine.old).items (E.machine engine.old).pins board.now }
    requires first { E.present engine.old ≡ (E.machine engine.old).defined [] }
    requires counters { counters.old ≡ map (λ timer. counter_after timer []) board.now.timers }
    requires room { length pins.old ≡ board.now.pins }
    requires nothing { printed.old.items ≡ [] }
    ensures stands { OnOk result (E.present engine.new ≡ (E.machine engine.old).defined (fed_entries (E.machine engine.old) board.now input.now count)) }
    ensures printed { OnOk result (printed.new.items ≡ output (E.machine engine.old) board.now input.now count) }
    ensures within { (k : ℕ) × (k ≤ count)
        × (E.present engine.new ≡ (E.machine engine.old).defined (fed_entries (E.machine engine.old) board.now input.now k)) }
    ensures machine { E.machine engine.new ≡ E.machine engine.old }
{
    let mut port = first_port(board.console, engine, input);
    for made in 0..count {
        tick_all(engine, &board.timers, counters);
        set_pins(board, counters, port.rest, pins);
        engine.edge(pins);
        port = look_again(board.console, engine, &port, printed)?;
    }
    Ok(())
}

/// Makes the edges 1 to `count` of an engine beside a board, and answers what the console prints.
///
/// In each edge the pins have the values that the devices make of all rows of items before it, from the row after no edge on,
/// and of the input. Where memory is wanted, the engine stands after one of these edges, or after none. Each edge costs as much
/// time as there are devices and pins, beside the engine's own.
pub fn run_board<E: Engine>(
    alloc: Global,
    board: &Board,
    engine: &mut E,
    input: &[u8],
    count: u32,
) -> Result<Vec<u8>, NoMemory>
    requires board { IsBoardFor (E.machine engine.old).items (E.machine engine.old).pins board.now }
    requires first { E.present engine.old ≡ (E.machine engine.old).defined [] }
    ensures stands { OnOk result (E.present engine.new ≡ (E.machine engine.old).defined (fed_entries (E.machine engine.old) board.now input.now count)) }
    ensures printed { IfOk result (λ bytes. bytes.items ≡ output (E.machine engine.old) board.now input.now count) }
    ensures within { (k : ℕ) × (k ≤ count)
        × (E.present engine.new ≡ (E.machine engine.old).defined (fed_entries (E.machine engine.old) board.now input.now k)) }
    ensures machine { E.machine engine.new ≡ E.machine engine.old }
{
    let mut counters = vec![in alloc; Counter { count: 0, pulse: 0 }; board.timers.len()]?;
    let mut pins = vec![in alloc; 0; board.pins as usize]?;
    let mut printed = Vec::new(alloc);
    make_edges(
        board,
        engine,
        input,
        count,
        &mut counters,
        &mut pins,
        &mut printed,
    )?;
    Ok(printed)
}
