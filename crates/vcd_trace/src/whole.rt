// Dumps, read whole.
ghost use Rattle.std.specs.Prelude.{◌≡◌, ◌<◌, ◌≤◌, ◌^◌, length, map, All, IfOk};
ghost use Rattle.vcd_trace.specs.Meaning.{item_of};
ghost use Rattle.vcd_trace.specs.VcdFaults.{unknown_code, bad_width, not_rising, value_width, no_first, counts, too_many, fault_of, Answers};
ghost use Rattle.vcd_trace.specs.Checked.{checked, IsUnlessNoMemory};

use crate::checks::{
    count_times, event_place, find_fall, find_misfit, find_too_wide, find_unknown,
};
use crate::codes::Codes;
use crate::dumps::Vcd;
use crate::faults::VcdFault;
use crate::firsts::find_unset;
use crate::forms::{Content, read_form};
use crate::parts::{Declaration, Event};
use crate::replay::read_times;
use lisa_engine::Item;
use lisa_words::{Name, NoMemory};
use std::alloc::Global;

fn check_codes<'a>(codes: &Codes<'a, '_>, events: &[Event<'a>]) -> Result<(), VcdFault>
    ensures { result ≡ checked (unknown_code codes.now.variables.now events.now) }
{
    match find_unknown(codes, events) {
        Some(event) => Err(VcdFault::UnknownCode {
            at: event_place(event),
        }),
        None => Ok(()),
    }
}

fn check_widths(alloc: Global, codes: &Codes<'_, '_>) -> Result<(), VcdFault>
    ensures { IsUnlessNoMemory (checked (bad_width codes.now.variables.now)) result }
{
    match find_misfit(codes) {
        Some(variable) => Err(VcdFault::BadWidth {
            name: Name::from_bytes(alloc, variable.name)?,
            width: variable.width,
        }),
        None => Ok(()),
    }
}

fn check_times(events: &[Event<'_>]) -> Result<(), VcdFault>
    ensures { result ≡ checked (not_rising events.now) }
{
    match find_fall(events) {
        Some(at) => Err(VcdFault::NotRising { at }),
        None => Ok(()),
    }
}

fn check_values<'a>(codes: &Codes<'a, '_>, events: &[Event<'a>]) -> Result<(), VcdFault>
    ensures { result ≡ checked (value_width codes.now.variables.now events.now) }
{
    match find_too_wide(codes, events) {
        Some(event) => Err(VcdFault::ValueWidth {
            at: event_place(event),
        }),
        None => Ok(()),
    }
}

fn check_firsts<'a>(
    alloc: Global,
    variables: &[Declaration<'a>],
    events: &[Event<'a>],
) -> Result<(), VcdFault>
    ensures { IsUnlessNoMemory (checked (no_first variables.now events.now)) result }
{
    match find_unset(alloc, variables, events)? {
        Some(variable) => Err(VcdFault::NoFirst {
            name: Name::from_bytes(alloc, variable.name)?,
        }),
        None => Ok(()),
    }
}

fn check_count(alloc: Global, what: &[u8], count: usize, limit: u64) -> Result<(), VcdFault>
    ensures { IsUnlessNoMemory (checked (too_many what.now count limit)) result }
{
    let count = count as u64;
    if count > limit {
        return Err(VcdFault::TooMany {
            what: Name::from_bytes(alloc, what)?,
            count,
            limit,
        });
    }
    Ok(())
}

fn check_counts(
    alloc: Global,
    variables: &[Declaration<'_>],
    events: &[Event<'_>],
) -> Result<(), VcdFault>
    ensures { IsUnlessNoMemory (checked (counts variables.now events.now)) result }
{
    check_count(alloc, b"items", variables.len(), 8192)?;
    check_count(alloc, b"times", count_times(events), 10_001)
}

// The first fault of a form.
fn check<'a>(alloc: Global, codes: &Codes<'a, '_>, events: &[Event<'a>]) -> Result<(), VcdFault>
    ensures { IsUnlessNoMemory (checked (fault_of codes.now.variables.now events.now)) result }
{
    check_codes(codes, events)?;
    check_widths(alloc, codes)?;
    check_times(events)?;
    check_values(codes, events)?;
    check_firsts(alloc, codes.variables, events)?;
    check_counts(alloc, codes.variables, events)
}

fn make_item(alloc: Global, variable: &Declaration<'_>) -> Result<Item, NoMemory>
    requires { variable.now.width ≤ 64 }
    ensures { IfOk result (λ item. item ≡ item_of variable.now) }
{
    let name = Name::from_bytes(alloc, variable.name)?;
    let width = variable.width as u32;
    Ok(Item { name, width })
}

fn make_items(alloc: Global, variables: &[Declaration<'_>]) -> Result<Vec<Item>, NoMemory>
    requires { All (λ v. v.width ≤ 64) variables.now }
    ensures { IfOk result (λ items. items.items ≡ map item_of variables.now) }
{
    let mut items = Vec::new(alloc);
    for variable in variables {
        items.push(make_item(alloc, variable)?)?;
    }
    Ok(items)
}

/// Reads a value change dump of two-valued variables.
///
/// The first fault counts, by its number, and inside a number by its place. It takes time that grows with the bytes, and with the
/// items at each time.
pub fn read_vcd(alloc: Global, bytes: &[u8]) -> Result<Vcd, VcdFault>
    requires { length bytes.now < 2 ^ 32 }
    ensures { Answers bytes.now result }
{
    let content = read_form(alloc, bytes)?;
    let codes = Codes::new(alloc, content.variables())?;
    check(alloc, &codes, content.events())?;
    let items = make_items(alloc, content.variables())?;
    let times = read_times(alloc, &codes, content.events())?;
    Ok(Vcd { items, times })
}
