// The console of a board.
ghost use Rattle.std.specs.Prelude.{◌≡◌, ◌<◌, ◌++◌, [], ◌∷◌, ◌==◌, if◌then◌else◌, ℕ, List, IfOk, IfSome, OnOk, drop, length, fold, slice_index};
ghost use Rattle.lisa_engine.specs.PinValues.{set_pin};
ghost use Rattle.lisa_board.specs.Boards.{IsConsoleFor};
ghost use Rattle.lisa_board.specs.Feeding.{offer as offered, printed_by};
ghost use Rattle.lisa_board.specs.Kept.{seen_by, offered_by, next_seen, shown_by};

use crate::parts::Console;
use lisa_engine::Engine;
use lisa_words::NoMemory;
use std::marker::Model;

// What is kept for a console from edge to edge: what is left of the input, and the values of STROBE and TAKEN. Contracts
// see their record.
#[derive(Drop)]
pub(crate) struct Port<'a> {
    pub(crate) rest: &'a [u8],
    pub(crate) strobe: u64,
    pub(crate) taken: u64,
}

impl<'a> Model for Port<'a> {
    ghost use Rattle.lisa_board.specs.Kept.{Seen};

    ghost Value = { Seen };

    ghost view = { λ p. record { rest = p.rest.now; strobe = p.strobe; taken = p.taken } };
}

// Gives the console's pins the next byte, or 0 where none is left.
fn offer(console: Console, rest: &[u8], pins: &mut [u64])
    requires byte { console.byte < length pins.old }
    requires valid { console.valid < length pins.old }
    ensures { pins.new ≡ fold set_pin pins.old (offered console rest.now) }
{
    match rest {
        [byte, ..] => {
            pins[console.byte as usize] = *byte as u64;
            pins[console.valid as usize] = 1;
        }
        [] => {
            pins[console.byte as usize] = 0;
            pins[console.valid as usize] = 0;
        }
    }
}

// The same, where there is a console.
pub(crate) fn offer_byte(console: Option<Console>, rest: &[u8], pins: &mut [u64])
    requires byte { IfSome console (λ c. c.byte < length pins.old) }
    requires valid { IfSome console (λ c. c.valid < length pins.old) }
    ensures { pins.new ≡ fold set_pin pins.old (offered_by console rest.now) }
{
    if let Some(console) = console {
        offer(console, rest, pins);
    }
}

// What is kept at first.
pub(crate) fn first_port<'a, E: Engine>(
    console: Option<Console>,
    engine: &E,
    input: &'a [u8],
) -> Port<'a>
    requires { IfSome console (IsConsoleFor (E.machine engine.now).items (E.machine engine.now).pins) }
    ensures { result ≡ seen_by console input.now [] (E.present engine.now).items }
{
    match console {
        Some(console) => Port {
            rest: input,
            strobe: engine.value(console.strobe as usize),
            taken: engine.value(console.taken as usize),
        },
        None => Port {
            rest: input,
            strobe: 0,
            taken: 0,
        },
    }
}

// The input without its first byte, where one is left and taken.
fn rest_behind(rest: &[u8], is_kept: bool) -> &[u8]
    ensures { result.now ≡ (if is_kept then rest.now else drop 1 rest.now) }
{
    if is_kept {
        return rest;
    }
    match rest {
        [_, behind @ ..] => behind,
        [] => rest,
    }
}

// Prints a byte where STROBE isn't as before.
fn print<E: Engine>(
    console: Console,
    engine: &E,
    strobe: u64,
    printed: &mut Vec<u8>,
) -> Result<(), NoMemory>
    requires { IsConsoleFor (E.machine engine.now).items (E.machine engine.now).pins console }
    ensures { OnOk result (printed.new.items ≡ printed.old.items ++ shown_by console strobe (E.present engine.now).items) }
{
    if strobe == engine.value(console.strobe as usize) {
        return Ok(());
    }
    let byte = engine.value(console.shown as usize) % 256;
    printed.push(byte as u8)?;
    Ok(())
}

// What is kept after one more edge. It prints a byte where STROBE changed.
fn look<'a, E: Engine>(
    console: Console,
    engine: &E,
    port: &Port<'a>,
    printed: &mut Vec<u8>,
) -> Result<Port<'a>, NoMemory>
    requires { IsConsoleFor (E.machine engine.now).items (E.machine engine.now).pins console }
    ensures port { IfOk result (λ next. next ≡ next_seen console port.now (E.present engine.now).items) }
    ensures printed { OnOk result (printed.new.items ≡ printed.old.items ++ shown_by console port.now.strobe (E.present engine.now).items) }
{
    print(console, engine, port.strobe, printed)?;
    let taken = engine.value(console.taken as usize);
    Ok(Port {
        rest: rest_behind(port.rest, port.taken == taken),
        strobe: engine.value(console.strobe as usize),
        taken,
    })
}

// The same, where there is a console.
pub(crate) fn look_again<'a, E: Engine>(
    console: Option<Console>,
    engine: &E,
    port: &Port<'a>,
    printed: &mut Vec<u8>,
) -> Result<Port<'a>, NoMemory>
    requires { IfSome console (IsConsoleFor (E.machine engine.now).items (E.machine engine.now).pins) }
    ensures port { (input : List ℕ) (earlier : List (List ℕ)) (row : List ℕ) → port.now ≡ seen_by console input earlier row
        → IfOk result (λ next. next ≡ seen_by console input (earlier ++ row ∷ []) (E.present engine.now).items) }
    ensures printed { (input : List ℕ) (earlier : List (List ℕ)) (row : List ℕ) → port.now ≡ seen_by console input earlier row
        → printed.old.items ≡ printed_by console (earlier ++ row ∷ [])
        → OnOk result (printed.new.items ≡ printed_by console ((earlier ++ row ∷ []) ++ (E.present engine.now).items ∷ [])) }
{
    match console {
        Some(console) => look(console, engine, port, printed),
        None => Ok(Port {
            rest: port.rest,
            strobe: port.strobe,
            taken: port.taken,
        }),
    }
}
