// The lines of a board file.
ghost use Rattle.std.specs.Prelude.{◌≡◌, ◌<◌, ◌^◌, ◌==◌, IfOk, IfSome, length, map};
ghost use Rattle.std.specs.List.{slice_split, list_any};
ghost use Rattle.std.specs.Str.{bytes_eq};
ghost use Rattle.lisa_engine.specs.Schedules.{width_at};
ghost use Rattle.lisa_board.specs.Boards.{console_pins};
ghost use Rattle.lisa_board.specs.BoardLines.{place_of, is_driven, timer_of, named_console, placed_console, console_of, device_of_words, is_empty_word, device_of, IsUnlessNoMemory};

use crate::board::Board;
use crate::device::Device;
use crate::fault::BoardFault;
use crate::parts::{Console, Timer};
use lisa_engine::Item;
use lisa_words::Name;
use std::alloc::{AllocError, Global};

// How many timers a board has at most.
const MOST_TIMERS: usize = 8;

// The place of the item or pin of this name.
fn position_of(parts: &[Item], name: &[u8]) -> Option<usize>
    ensures place { result ≡ place_of parts.now name.now }
    ensures within { IfSome result (λ place. place < length parts.now) }
{
    parts.iter().position(|part| part.name.as_bytes() == name)
}

// The same, as a number that a device keeps.
fn find_place(parts: &[Item], name: &[u8]) -> Option<u32>
    requires { length parts.now < 2 ^ 32 }
    ensures { result ≡ place_of parts.now name.now }
{
    match position_of(parts, name) {
        Some(place) => Some(place as u32),
        None => None,
    }
}

// Some timer drives the pin.
fn has_timer_at(timers: &[Timer], pin: u32) -> bool
    ensures { result ≡ list_any (λ timer. timer.pin == pin) timers.now }
{
    timers.iter().any(|timer| timer.pin == pin)
}

// The console drives the pin.
fn has_console_at(console: Option<Console>, pin: u32) -> bool
    ensures { result ≡ list_any (λ other. other == pin) (console_pins console) }
{
    match console {
        Some(console) => console.byte == pin || console.valid == pin,
        None => false,
    }
}

// Some device drives the pin.
fn is_pin_driven(board: &Board, pin: u32) -> bool
    ensures { result ≡ is_driven board.now pin }
{
    if has_console_at(board.console, pin) {
        return true;
    }
    has_timer_at(&board.timers, pin)
}

// The timer that a line gives by the names of its item and of its pin.
fn read_timer(
    alloc: Global,
    items: &[Item],
    pins: &[Item],
    line: u32,
    board: &Board,
    load: &[u8],
    pin: &[u8],
) -> Result<Device, BoardFault>
    requires items { length items.now < 2 ^ 32 }
    requires pins { length pins.now < 2 ^ 32 }
    ensures { IsUnlessNoMemory (timer_of items.now pins.now line board.now load.now pin.now) result }
{
    let Some(item) = find_place(items, load) else {
        let name = Name::from_bytes(alloc, load)?;
        return Err(BoardFault::UnknownItem { line, name });
    };
    let Some(place) = find_place(pins, pin) else {
        let name = Name::from_bytes(alloc, pin)?;
        return Err(BoardFault::UnknownPin { line, name });
    };
    if is_pin_driven(board, place) {
        let name = Name::from_bytes(alloc, pin)?;
        return Err(BoardFault::PinTaken { line, name });
    }
    if board.timers.len() >= MOST_TIMERS {
        let what = Name::from_bytes(alloc, b"timer")?;
        let limit = MOST_TIMERS as u64;
        return Err(BoardFault::TooMany { line, what, limit });
    }
    Ok(Device::Timer(Timer {
        load: item,
        pin: place,
    }))
}

// The items and pins that a line names for a console.
fn read_names(
    alloc: Global,
    items: &[Item],
    pins: &[Item],
    line: u32,
    shown: &[u8],
    strobe: &[u8],
    byte: &[u8],
    valid: &[u8],
    taken: &[u8],
) -> Result<Console, BoardFault>
    requires items { length items.now < 2 ^ 32 }
    requires pins { length pins.now < 2 ^ 32 }
    ensures { IsUnlessNoMemory (named_console items.now pins.now line shown.now strobe.now byte.now valid.now taken.now) result }
{
    let Some(shown_item) = find_place(items, shown) else {
        let name = Name::from_bytes(alloc, shown)?;
        return Err(BoardFault::UnknownItem { line, name });
    };
    let Some(strobe_item) = find_place(items, strobe) else {
        let name = Name::from_bytes(alloc, strobe)?;
        return Err(BoardFault::UnknownItem { line, name });
    };
    let Some(taken_item) = find_place(items, taken) else {
        let name = Name::from_bytes(alloc, taken)?;
        return Err(BoardFault::UnknownItem { line, name });
    };
    let Some(byte_pin) = find_place(pins, byte) else {
        let name = Name::from_bytes(alloc, byte)?;
        return Err(BoardFault::UnknownPin { line, name });
    };
    let Some(valid_pin) = find_place(pins, valid) else {
        let name = Name::from_bytes(alloc, valid)?;
        return Err(BoardFault::UnknownPin { line, name });
    };
    Ok(Console {
        shown: shown_item,
        strobe: strobe_item,
        byte: byte_pin,
        valid: valid_pin,
        taken: taken_item,
    })
}

// How wide the pin is.
fn width_of(pins: &[Item], place: u32) -> u32
    ensures { result ≡ width_at pins.now place }
{
    match pins.get(place as usize) {
        Some(pin) => pin.width,
        None => 0,
    }
}

// The console on the board, where its pins are free, the first is wide enough and no other console is there.
fn place_console(
    alloc: Global,
    pins: &[Item],
    line: u32,
    board: &Board,
    byte: &[u8],
    valid: &[u8],
    console: Console,
) -> Result<Device, BoardFault>
    ensures { IsUnlessNoMemory (placed_console pins.now line board.now byte.now valid.now console) result }
{
    if is_pin_driven(board, console.byte) {
        let name = Name::from_bytes(alloc, byte)?;
        return Err(BoardFault::PinTaken { line, name });
    }
    if is_pin_driven(board, console.valid) || console.valid == console.byte {
        let name = Name::from_bytes(alloc, valid)?;
        return Err(BoardFault::PinTaken { line, name });
    }
    let width = width_of(pins, console.byte);
    if width < 8 {
        let name = Name::from_bytes(alloc, byte)?;
        let width = width as u64;
        return Err(BoardFault::PinWidth { line, name, width });
    }
    if board.console.is_some() {
        let what = Name::from_bytes(alloc, b"console")?;
        return Err(BoardFault::TooMany {
            line,
            what,
            limit: 1,
        });
    }
    Ok(Device::Console(console))
}

// The console that a line gives by the names of its items and pins.
fn read_console(
    alloc: Global,
    items: &[Item],
    pins: &[Item],
    line: u32,
    board: &Board,
    shown: &[u8],
    strobe: &[u8],
    byte: &[u8],
    valid: &[u8],
    taken: &[u8],
) -> Result<Device, BoardFault>
    requires items { length items.now < 2 ^ 32 }
    requires pins { length pins.now < 2 ^ 32 }
    ensures { IsUnlessNoMemory (console_of items.now pins.now line board.now shown.now strobe.now byte.now valid.now taken.now) result }
{
    match read_names(alloc, items, pins, line, shown, strobe, byte, valid, taken) {
        Ok(console) => place_console(alloc, pins, line, board, byte, valid, console),
        Err(fault) => Err(fault),
    }
}

fn is_same_word(word: &[u8], text: &[u8]) -> bool
    ensures { result ≡ bytes_eq word.now text.now }
{
    word == text
}

// The device that words of one or more bytes give.
fn read_words(
    alloc: Global,
    items: &[Item],
    pins: &[Item],
    line: u32,
    board: &Board,
    words: &[&[u8]],
) -> Result<Device, BoardFault>
    requires items { length items.now < 2 ^ 32 }
    requires pins { length pins.now < 2 ^ 32 }
    ensures { IsUnlessNoMemory (device_of_words items.now pins.now line board.now (map (λ w. w.now) words.now)) result }
{
    match words {
        [device, load, pin] => {
            if is_same_word(device, b"timer") {
                return read_timer(alloc, items, pins, line, board, load, pin);
            }
            Err(BoardFault::BadLine { line })
        }
        [device, shown, strobe, byte, valid, taken] => {
            if is_same_word(device, b"console") {
                return read_console(
                    alloc, items, pins, line, board, shown, strobe, byte, valid, taken,
                );
            }
            Err(BoardFault::BadLine { line })
        }
        _ => Err(BoardFault::BadLine { line }),
    }
}

// The words of a line, with single blanks between.
fn words_of<'a>(alloc: Global, text: &'a [u8]) -> Result<Vec<&'a [u8]>, AllocError>
    ensures { IfOk result (λ words. map (λ w. w.now) words.items ≡ slice_split (λ c. c == 32) text.now) }
{
    text.split(|byte| *byte == b' ').collect(alloc)
}

fn is_word_empty(word: &[u8]) -> bool
    ensures { result ≡ is_empty_word word.now }
{
    word.is_empty()
}

fn is_any_empty(words: &[&[u8]]) -> bool
    ensures { result ≡ list_any (λ w. is_empty_word w.now) words.now }
{
    words.iter().any(|word| is_word_empty(word))
}

// Some word has no bytes.
#[tactic(none)]
fn has_empty_word(words: &[&[u8]]) -> bool
    ensures { result ≡ list_any is_empty_word (map (λ w. w.now) words.now) }
{
    is_any_empty(words)
}

// The device that a line gives, which isn't empty.
pub(crate) fn read_device(
    alloc: Global,
    items: &[Item],
    pins: &[Item],
    line: u32,
    board: &Board,
    text: &[u8],
) -> Result<Device, BoardFault>
    requires items { length items.now < 2 ^ 32 }
    requires pins { length pins.now < 2 ^ 32 }
    ensures { IsUnlessNoMemory (device_of items.now pins.now line board.now text.now) result }
{
    let words = words_of(alloc, text)?;
    if has_empty_word(&words) {
        return Err(BoardFault::BadLine { line });
    }
    read_words(alloc, items, pins, line, board, &words)
}
