// What may be wrong with a form, each kind of fault by itself.
ghost use Rattle.std.specs.Prelude.{◌≡◌, ◌^◌, find, nat_le, count_by, None};
ghost use Rattle.std.specs.Option.{option_copied};
ghost use Rattle.vcd_trace.specs.VcdFaults.{is_unknown, is_misfit, falls, first_fall, overflows, is_too_wide, is_time, event_place};

use crate::codes::Codes;
use crate::parts::{Declaration, Event};

/// The place of a time or a change.
pub(crate) fn event_place(event: &Event<'_>) -> u32
    ensures { result ≡ event_place event.now }
{
    match event {
        Event::Time(moment) => moment.at,
        Event::Change(change) => change.at,
    }
}

fn is_unknown<'a>(codes: &Codes<'a, '_>, event: &Event<'a>) -> bool
    ensures { result ≡ is_unknown codes.now.variables.now event.now }
{
    match event {
        Event::Time(_) => false,
        Event::Change(change) => codes.place(change.code).is_none(),
    }
}

/// The first change whose code no variable has.
pub(crate) fn find_unknown<'a, 'c>(
    codes: &Codes<'a, '_>,
    events: &'c [Event<'a>],
) -> Option<&'c Event<'a>>
    ensures { option_copied result ≡ find (is_unknown codes.now.variables.now) events.now }
{
    for event in events {
        if is_unknown(codes, event) {
            return Some(event);
        }
    }
    None
}

fn is_misfit<'a>(codes: &Codes<'a, '_>, variable: &Declaration<'a>) -> bool
    ensures { result ≡ is_misfit codes.now.variables.now variable.now }
{
    variable.width < 1 || variable.width > 64 || variable.width != codes.width(variable.code)
}

/// The first variable of a wrong width.
pub(crate) fn find_misfit<'a, 'b>(codes: &Codes<'a, 'b>) -> Option<&'b Declaration<'a>>
    ensures { option_copied result ≡ find (is_misfit codes.now.variables.now) codes.now.variables.now }
{
    for variable in codes.variables {
        if is_misfit(codes, variable) {
            return Some(variable);
        }
    }
    None
}

fn falls(before: Option<u64>, time: u64) -> bool
    ensures { result ≡ falls before time }
{
    match before {
        Some(before) => time <= before,
        None => false,
    }
}

/// The place of the first time that isn't above the one before.
pub(crate) fn find_fall(events: &[Event<'_>]) -> Option<u32>
    ensures { result ≡ first_fall None events.now }
{
    let mut before: Option<u64> = None;
    for event in events {
        match event {
            Event::Change(_) => {}
            Event::Time(moment) => {
                if falls(before, moment.time) {
                    return Some(moment.at);
                }
                before = Some(moment.time);
            }
        }
    }
    None
}

fn is_wider(value: u64, width: u64) -> bool
    ensures { result ≡ nat_le (2 ^ width) value }
{
    if width < 64 {
        value >> width != 0
    } else {
        false
    }
}

// Whether a value doesn't fit so many bits.
fn overflows(width: u64, value: Option<u64>) -> bool
    ensures { result ≡ overflows width value }
{
    match value {
        Some(value) => is_wider(value, width),
        None => true,
    }
}

fn is_too_wide<'a>(codes: &Codes<'a, '_>, event: &Event<'a>) -> bool
    ensures { result ≡ is_too_wide codes.now.variables.now event.now }
{
    match event {
        Event::Time(_) => false,
        Event::Change(change) => overflows(codes.width(change.code), change.value),
    }
}

/// The first change whose value has more digits than its variable's width.
pub(crate) fn find_too_wide<'a, 'c>(
    codes: &Codes<'a, '_>,
    events: &'c [Event<'a>],
) -> Option<&'c Event<'a>>
    ensures { option_copied result ≡ find (is_too_wide codes.now.variables.now) events.now }
{
    for event in events {
        if is_too_wide(codes, event) {
            return Some(event);
        }
    }
    None
}

fn is_time(event: &Event<'_>) -> bool
    ensures { result ≡ is_time event.now }
{
    match event {
        Event::Time(_) => true,
        Event::Change(_) => false,
    }
}

/// How many times there are.
pub(crate) fn count_times(events: &[Event<'_>]) -> usize
    ensures { result ≡ count_by is_time events.now }
{
    events.iter().filter(|event| is_time(event)).count()
}
