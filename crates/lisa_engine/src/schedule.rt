// Schedules: the values that pins get, edge by edge.
ghost use Rattle.std.specs.Prelude.{◌≡◌, ◌<◌, ◌^◌, ◌+◌, ◌==◌, if◌then◌else◌, List, [], ℕ, Option, Some, Ok, IfOk, IfSome, MatchOption, map, length, take, drop, unwrap_or, nat_le, fold, All, slice_index_or, ◌≤◌};
ghost use Rattle.std.specs.List.{slice_split, position, find, list_any, before_last, after_last};
ghost use Rattle.std.specs.Option.{option_map, option_copied};
ghost use Rattle.std.specs.Str.Lines.{strip_carriage_return};
ghost use Rattle.lisa_engine.specs.Schedules.{number_of, setting_of, settings_of, edge_of, form_of, is_named, names_twice, is_unknown, placed, is_too_wide, name_at, placed_line, checked_line, line_of, schedule_of, IsUnlessNoMemory};
ghost use Rattle.lisa_engine.specs.PinValues.{set_pin, after_lines, pins_at, IsPlayable, IsPlaceAfter, IsFor};
ghost use Rattle.lisa_engine.specs.ScheduleLine.{Line};

use crate::parts::{Item, Setting};
use lisa_words::{Name, NoMemory, canonical_decimal, hex_value};
use std::alloc::{AllocError, AllocFailed, Global};
use std::collections::BTreeSet;
use std::marker::Model;

/// Why a schedule wasn't read. Lines are counted from 1, and the first line with a fault counts.
#[derive(Debug, Drop)]
pub enum ScheduleFault {
    /// The line is no edge number with one or more settings, or has a name twice, whether a pin has it or not.
    BadLine { line: u32 },
    /// No pin has this name.
    UnknownPin { line: u32, name: Name },
    /// The line's edge is 0, or not above the edge of the line before.
    NotRising { line: u32 },
    /// The value doesn't fit the pin.
    PinRange { line: u32, name: Name, value: u64 },
    /// Memory was wanted and not given.
    NoMemory,
}

impl From<AllocError> for ScheduleFault {
    ghost use Rattle.lisa_engine.specs.declared.schedule.ScheduleFault.TheVariants.{NoMemory};

    ghost from_gives = { λ _ fault. fault ≡ NoMemory };

    fn from(_error: AllocError) -> ScheduleFault {
        ScheduleFault::NoMemory
    }
}

impl<T: Drop> From<AllocFailed<T>> for ScheduleFault {
    ghost use Rattle.lisa_engine.specs.declared.schedule.ScheduleFault.TheVariants.{NoMemory};

    ghost from_gives = { λ _ fault. fault ≡ NoMemory };

    fn from(_error: AllocFailed<T>) -> ScheduleFault {
        ScheduleFault::NoMemory
    }
}

impl From<NoMemory> for ScheduleFault {
    ghost use Rattle.lisa_engine.specs.declared.schedule.ScheduleFault.TheVariants.{NoMemory};

    ghost from_gives = { λ _ fault. fault ≡ NoMemory };

    fn from(_error: NoMemory) -> ScheduleFault {
        ScheduleFault::NoMemory
    }
}

/// A line of a schedule. Contracts see the record of its edge and the list of its settings.
#[derive(Debug, Drop)]
pub struct ScheduleLine {
    edge: u32,
    settings: Vec<Setting>,
}

impl Model for ScheduleLine {
    ghost use Rattle.lisa_engine.specs.ScheduleLine.{Line};

    ghost Value = { Line };

    ghost view = { λ l. record { edge = l.edge; settings = l.settings.items } };
}

/// The values that pins get, edge by edge. Contracts see the list of its lines.
#[derive(Debug, Drop)]
pub struct Schedule {
    lines: Vec<ScheduleLine>,
}

impl Model for Schedule {
    ghost use Rattle.std.specs.Prelude.{List};
    ghost use Rattle.lisa_engine.specs.ScheduleLine.{Line};

    ghost Value = { List Line };

    ghost view = { λ s. s.lines.items };
}

// Gives the pins their new values.
fn set_pins(settings: &[Setting], into: &mut [u64])
    requires { All (λ setting. setting.pin < length into.old) settings.now }
    ensures { into.new ≡ fold set_pin into.old settings.now }
{
    for setting in settings {
        into[setting.pin] = setting.value;
    }
}

impl Schedule {
    /// Writes the values that the pins have in an edge.
    pub fn at(&self, edge: u32, into: &mut [u64])
        requires { IsPlayable (length into.old) self.now }
        ensures { into.new ≡ pins_at (length into.old) self.now edge }
    {
        into.fill(0);
        let _ = self.play(0, edge, into);
    }

    /// Plays the lines from a place on that hold in an edge, and answers the place after them.
    ///
    /// So the values of each edge in turn are written in time that grows with the lines, and not with the edges before.
    pub fn play(&self, from: usize, edge: u32, into: &mut [u64]) -> usize
        requires playable { IsPlayable (length into.old) self.now }
        requires within { from ≤ length self.now }
        requires played { (k : ℕ) (line : Line) → k < from → (slice_index_or self.now k line).edge ≤ edge }
        requires values { into.old ≡ after_lines (length into.old) (take from self.now) }
        ensures place { IsPlaceAfter self.now edge result }
        ensures values { into.new ≡ after_lines (length into.old) (take result self.now) }
    {
        for place in from..self.lines.len() {
            let line = &self.lines[place];
            if line.edge > edge {
                return place;
            }
            set_pins(&line.settings, into);
        }
        self.lines.len()
    }
}

/// A number below 2^64: decimal digits without leading zeros, or `0x` and hexadecimal digits of either case.
pub fn read_number(word: &[u8]) -> Option<u64>
    ensures { result ≡ number_of word.now }
{
    match word.strip_prefix(b"0x") {
        Some(digits) => hex_value(digits),
        None => canonical_decimal(word),
    }
}

// The words of a line, with single blanks between.
fn words_of<'a>(alloc: Global, text: &'a [u8]) -> Result<Vec<&'a [u8]>, AllocError>
    ensures { IfOk result (λ words. map (λ w. w.now) words.items ≡ slice_split (λ c. c == 32) text.now) }
{
    text.split(|byte| *byte == b' ').collect(alloc)
}

// The lines' bytes, with their carriage returns.
fn parts_of<'a>(alloc: Global, bytes: &'a [u8]) -> Result<Vec<&'a [u8]>, AllocError>
    ensures { IfOk result (λ parts. map (λ p. p.now) parts.items ≡ slice_split (λ c. c == 10) bytes.now) }
{
    bytes.split(|byte| *byte == b'\n').collect(alloc)
}

// A pin's name and its value, as a line has them. Contracts see the pair.
#[derive(Drop)]
struct Written<'a> {
    name: &'a [u8],
    value: u64,
}

impl<'a> Model for Written<'a> {
    ghost use Rattle.std.specs.Prelude.{ℕ, List};

    ghost Value = { List ℕ × ℕ };

    ghost view = { λ w. (w.name.now, w.value) };
}

// The place of the word's last `=`.
fn last_sign(word: &[u8]) -> Option<usize>
    ensures { MatchOption result (before_last (λ c. c == 61) word.now ≡ []) (λ i. (i < length word.now)
        × (before_last (λ c. c == 61) word.now ≡ take i word.now) × (after_last (λ c. c == 61) word.now ≡ drop (i + 1) word.now)) }
{
    let mut end = word.len();
    while end > 0 {
        if word[end - 1] == b'=' {
            return Some(end - 1);
        }
        end -= 1;
    }
    None
}

// The name and the value that a word writes.
fn read_setting(word: &[u8]) -> Option<Written<'_>>
    ensures { result ≡ setting_of word.now }
{
    let sign = last_sign(word)?;
    if sign == 0 {
        return None;
    }
    let value = read_number(&word[sign + 1..])?;
    Some(Written {
        name: &word[..sign],
        value,
    })
}

// The names and the values that the words write.
fn read_settings<'a>(
    alloc: Global,
    words: &[&'a [u8]],
) -> Result<Option<Vec<Written<'a>>>, AllocError>
    ensures { IfOk result (λ o. option_map (λ v. v.items) o ≡ settings_of (map (λ w. w.now) words.now)) }
{
    let mut settings = Vec::new(alloc);
    for word in words {
        match read_setting(word) {
            Some(setting) => settings.push(setting)?,
            None => return Ok(None),
        }
    }
    Ok(Some(settings))
}

// The edge that a word writes.
fn read_edge(word: &[u8]) -> Option<u32>
    ensures { result ≡ edge_of word.now }
{
    u32::try_from(read_number(word)?).ok()
}

// The edge and the settings that a line writes.
fn read_form<'a>(
    alloc: Global,
    text: &'a [u8],
) -> Result<Option<(u32, Vec<Written<'a>>)>, AllocError>
    ensures { IfOk result (λ o. option_map (λ form. (form.0, form.1.items)) o ≡ form_of text.now) }
{
    let words = words_of(alloc, text)?;
    let [edge, settings @ ..] = words.as_slice() else {
        return Ok(None);
    };
    if settings.is_empty() {
        return Ok(None);
    }
    let Some(edge) = read_edge(edge) else {
        return Ok(None);
    };
    match read_settings(alloc, settings)? {
        Some(settings) => Ok(Some((edge, settings))),
        None => Ok(None),
    }
}

// The pin has the setting's name.
fn is_pin(pin: &Item, setting: &Written<'_>) -> bool
    ensures { result ≡ is_named setting.now.0 pin.now }
{
    pin.name.as_bytes() == setting.name
}

// A name stands in more than one of the settings: from the last one on, each is looked up among those behind it.
fn is_any_named_twice(alloc: Global, settings: &[Written<'_>]) -> Result<bool, ScheduleFault>
    ensures { IsUnlessNoMemory (Ok (names_twice settings.now)) result }
{
    let mut behind = BTreeSet::new(alloc);
    let mut left = settings.len();
    while left > 0 {
        left -= 1;
        let setting = &settings[left];
        if !behind.insert(setting.name)? {
            return Ok(true);
        }
    }
    Ok(false)
}

// Some pin has the setting's name.
fn has_pin(pins: &[Item], setting: &Written<'_>) -> bool
    ensures { result ≡ list_any (is_named setting.now.0) pins.now }
{
    pins.iter().any(|pin| is_pin(pin, setting))
}

// The first of the settings whose pin isn't there.
fn find_unknown<'a, 'b>(pins: &[Item], settings: &'a [Written<'b>]) -> Option<&'a Written<'b>>
    ensures { option_copied result ≡ find (is_unknown pins.now) settings.now }
{
    settings.iter().find(|setting| !has_pin(pins, setting))
}

// The place of the pin with the setting's name.
fn find_pin(pins: &[Item], setting: &Written<'_>) -> Option<usize>
    ensures { result ≡ position (is_named setting.now.0) pins.now }
{
    pins.iter().position(|pin| is_pin(pin, setting))
}

// The setting with its pin's place.
fn place_setting(pins: &[Item], setting: &Written<'_>) -> Setting
    ensures { result ≡ placed pins.now setting.now }
{
    let pin = find_pin(pins, setting).unwrap_or(0);
    Setting {
        pin,
        value: setting.value,
    }
}

// The settings with their pins' places.
fn place_settings(
    alloc: Global,
    pins: &[Item],
    settings: &[Written<'_>],
) -> Result<Vec<Setting>, AllocError>
    ensures { IfOk result (λ v. v.items ≡ map (placed pins.now) settings.now) }
{
    settings
        .iter()
        .map(|setting| place_setting(pins, setting))
        .collect(alloc)
}

// The value has more bits.
fn is_wider(value: u64, width: u32) -> bool
    ensures { result ≡ nat_le (2 ^ width) value }
{
    if width < 64 {
        value >> width != 0
    } else {
        false
    }
}

// The value has more bits than the pin.
fn is_setting_too_wide(pins: &[Item], setting: &Setting) -> bool
    ensures { result ≡ is_too_wide pins.now setting.now }
{
    match pins.get(setting.pin) {
        Some(pin) => is_wider(setting.value, pin.width),
        None => is_wider(setting.value, 0),
    }
}

// The first of the settings whose value doesn't fit its pin.
fn find_too_wide<'a>(pins: &[Item], settings: &'a [Setting]) -> Option<&'a Setting>
    ensures { option_copied result ≡ find (is_too_wide pins.now) settings.now }
{
    settings
        .iter()
        .find(|setting| is_setting_too_wide(pins, setting))
}

// The line of settings with their pins' places.
fn make_line(
    alloc: Global,
    pins: &[Item],
    line: u32,
    edge: u32,
    settings: Vec<Setting>,
) -> Result<ScheduleLine, ScheduleFault>
    ensures { IsUnlessNoMemory (placed_line pins.now line edge settings.items) result }
{
    if let Some(setting) = find_too_wide(pins, &settings) {
        let name = name_of(alloc, pins, setting.pin)?;
        let value = setting.value;
        return Err(ScheduleFault::PinRange { line, name, value });
    }
    Ok(ScheduleLine { edge, settings })
}

// The name of the pin at a place.
fn name_of(alloc: Global, pins: &[Item], place: usize) -> Result<Name, NoMemory>
    ensures { IfOk result (λ name. name ≡ name_at pins.now place) }
{
    match pins.get(place) {
        Some(pin) => Name::from_bytes(alloc, pin.name.as_bytes()),
        None => Name::from_bytes(alloc, b""),
    }
}

// The line that an edge and settings make, after a line of the edge `before`.
fn check_line(
    alloc: Global,
    pins: &[Item],
    line: u32,
    before: u32,
    edge: u32,
    settings: &[Written<'_>],
) -> Result<ScheduleLine, ScheduleFault>
    ensures { IsUnlessNoMemory (checked_line pins.now line before (Some (edge, settings.now))) result }
{
    if is_any_named_twice(alloc, settings)? {
        return Err(ScheduleFault::BadLine { line });
    }
    if let Some(setting) = find_unknown(pins, settings) {
        let name = Name::from_bytes(alloc, setting.name)?;
        return Err(ScheduleFault::UnknownPin { line, name });
    }
    if edge <= before {
        return Err(ScheduleFault::NotRising { line });
    }
    let settings = place_settings(alloc, pins, settings)?;
    make_line(alloc, pins, line, edge, settings)
}

// The line that a text writes, after a line of the edge `before`.
fn read_line(
    alloc: Global,
    pins: &[Item],
    line: u32,
    before: u32,
    text: &[u8],
) -> Result<ScheduleLine, ScheduleFault>
    ensures { IsUnlessNoMemory (line_of pins.now line before text.now) result }
{
    match read_form(alloc, text)? {
        Some((edge, settings)) => check_line(alloc, pins, line, before, edge, &settings),
        None => Err(ScheduleFault::BadLine { line }),
    }
}

// A part of the bytes as a line: the carriage return at the end of each but the last is dropped.
fn line_text(part: &[u8], is_last: bool) -> &[u8]
    ensures { result.now ≡ (if is_last then part.now else strip_carriage_return part.now) }
{
    if is_last {
        return part;
    }
    match part {
        [text @ .., b'\r'] => text,
        _ => part,
    }
}

/// Reads the schedule that the bytes write for these pins.
///
/// The first line with a fault counts, and in a line the fault that comes first in `ScheduleFault`. An empty line is skipped.
pub fn read_schedule(alloc: Global, bytes: &[u8], pins: &[Item]) -> Result<Schedule, ScheduleFault>
    requires { length bytes.now < 2 ^ 32 }
    ensures read { IsUnlessNoMemory (schedule_of pins.now bytes.now) result }
    ensures fits { IfOk result (IsFor pins.now) }
{
    let parts = parts_of(alloc, bytes)?;
    let mut lines = Vec::new(alloc);
    let mut before = 0;
    for place in 0..parts.len() {
        let text = line_text(parts[place], place + 1 == parts.len());
        if !text.is_empty() {
            let line = read_line(alloc, pins, (place + 1) as u32, before, text)?;
            before = line.edge;
            lines.push(line)?;
        }
    }
    Ok(Schedule { lines })
}
