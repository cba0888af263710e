// The values at each time.
ghost use Rattle.std.specs.Prelude.{◌≡◌, ◌<◌, ◌^◌, ◌++◌, length, option_map, slice_index_or, IfOk, IfSome, OnOk, None, []};
ghost use Rattle.std.specs.List.{enumerate_from};
ghost use Rattle.vcd_trace.specs.Meaning.{blocks, place_of, changes_between, time_changes, times_from};
ghost use Rattle.vcd_trace.specs.CodeTables.{put_value, values_in, ended_times, ended_before};

use crate::codes::Codes;
use crate::dumps::VcdTime;
use crate::parts::{Event, NewValue};
use std::alloc::{AllocError, Global};

// A code gets its value.
fn put_new_value<'a>(codes: &Codes<'a, '_>, present: &mut Vec<u64>, change: &NewValue<'a>)
    requires { length present.old.items ≡ length codes.now.variables.now }
    ensures { present.new.items ≡ put_value present.old.items (place_of codes.now.variables.now change.now.code) change.now.value }
{
    if let Some(place) = codes.place(change.code) {
        present[place] = change.value.unwrap_or(0);
    }
}

fn value_at(present: &[u64], slot: usize) -> u64
    ensures { result ≡ slice_index_or present.now slot 0 }
{
    match present.get(slot) {
        Some(value) => *value,
        None => 0,
    }
}

// The values at these places.
fn values_at(alloc: Global, slots: &[usize], present: &[u64]) -> Result<Vec<u64>, AllocError>
    ensures { IfOk result (λ values. values.items ≡ values_in present.now slots.now) }
{
    slots
        .iter()
        .map(|slot| value_at(present, *slot))
        .collect(alloc)
}

// All values with their places.
fn all_changes(alloc: Global, now: &[u64]) -> Result<Vec<(u32, u64)>, AllocError>
    requires { length now.now < 2 ^ 32 }
    ensures { IfOk result (λ changes. changes.items ≡ enumerate_from 0 now.now) }
{
    let mut changes = Vec::with_capacity(alloc, now.len())?;
    for place in 0..now.len() {
        changes.push((place as u32, now[place]))?;
    }
    Ok(changes)
}

// The values that aren't those before, with their places.
fn changes_since(alloc: Global, before: &[u64], now: &[u64]) -> Result<Vec<(u32, u64)>, AllocError>
    requires few { length now.now < 2 ^ 32 }
    requires same { length before.now ≡ length now.now }
    ensures { IfOk result (λ changes. changes.items ≡ changes_between before.now now.now) }
{
    let mut changes = Vec::new(alloc);
    for place in 0..now.len() {
        if before[place] != now[place] {
            changes.push((place as u32, now[place]))?;
        }
    }
    Ok(changes)
}

// The changes at a time, of all values where there is none before it.
fn changes_at(
    alloc: Global,
    before: &Option<Vec<u64>>,
    now: &[u64],
) -> Result<Vec<(u32, u64)>, AllocError>
    requires few { length now.now < 2 ^ 32 }
    requires same { IfSome before.now (λ values. length values.items ≡ length now.now) }
    ensures { IfOk result (λ changes. changes.items ≡ time_changes (option_map (λ values. values.items) before.now) now.now) }
{
    match before {
        Some(before) => changes_since(alloc, before, now),
        None => all_changes(alloc, now),
    }
}

// Ends a time, if one has begun: what changed at it, and its values in place of those before.
fn end_time(
    alloc: Global,
    begun: Option<u64>,
    before: &mut Option<Vec<u64>>,
    times: &mut Vec<VcdTime>,
    slots: &[usize],
    present: &[u64],
) -> Result<(), AllocError>
    requires few { length slots.now < 2 ^ 32 }
    requires same { IfSome before.old (λ values. length values.items ≡ length slots.now) }
    ensures times { let now = values_in present.now slots.now in
        OnOk result (times.new.items ≡ times.old.items ++ ended_times begun (option_map (λ values. values.items) before.old) now) }
    ensures before { let now = values_in present.now slots.now in
        OnOk result (option_map (λ values. values.items) before.new ≡ ended_before begun (option_map (λ values. values.items) before.old) now) }
    ensures same { OnOk result (IfSome before.new (λ values. length values.items ≡ length slots.now)) }
{
    let Some(time) = begun else {
        return Ok(());
    };
    let now = values_at(alloc, slots, present)?;
    let changes = changes_at(alloc, &*before, &now)?;
    times.push(VcdTime { time, changes })?;
    *before = Some(now);
    Ok(())
}

/// The times, each with its changes.
pub(crate) fn read_times<'a>(
    alloc: Global,
    codes: &Codes<'a, '_>,
    events: &[Event<'a>],
) -> Result<Vec<VcdTime>, AllocError>
    requires { length codes.now.variables.now < 2 ^ 32 }
    ensures { IfOk result (λ times. times.items ≡ times_from codes.now.variables.now None [] (blocks events.now)) }
{
    let slots = codes.slots(alloc)?;
    let count = codes.variables.len();
    let mut present = vec![in alloc; 0; count]?;
    let mut before: Option<Vec<u64>> = None;
    let mut begun: Option<u64> = None;
    let mut times = Vec::new(alloc);
    for event in events {
        match event {
            Event::Change(change) => put_new_value(codes, &mut present, change),
            Event::Time(moment) => {
                end_time(alloc, begun, &mut before, &mut times, &slots, &present)?;
                begun = Some(moment.time);
            }
        }
    }
    end_time(alloc, begun, &mut before, &mut times, &slots, &present)?;
    Ok(times)
}
