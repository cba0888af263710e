// What a session keeps of the edges that it made.
ghost use Rattle.std.specs.Prelude.{◌≡◌, ◌<◌, ◌+◌, List, IfOk, OnOk, length, All, take};
ghost use Rattle.lisa_engine.specs.PinValues.{after_lines, IsPlayable, IsPlaceAfter, IsFor};
ghost use Rattle.lisa_engine.specs.Machines.{course_of, state_at};
ghost use Rattle.lisa_debug.specs.Kept.{restored, with_change, IsPlayed, HasMade};

use lisa_engine::{Engine, Schedule, Touch};
use lisa_words::NoMemory;
use std::alloc::Global;

// An item that an edge changed, with its value before.
#[derive(Clone, Copy, Debug, PartialEq, Eq)]
pub(crate) struct Change {
    pub(crate) item: usize,
    pub(crate) before: u64,
}

// What is kept of one edge: the items that it changed, and its touches.
#[derive(Drop)]
pub(crate) struct Entry {
    pub(crate) changes: Vec<Change>,
    pub(crate) touches: Vec<Touch>,
}

// The entries of the edges that were made, and room for the values of the items and of the pins.
#[derive(Drop)]
pub(crate) struct Journal {
    pub(crate) entries: Vec<Entry>,
    pub(crate) row: Vec<u64>,
    pub(crate) pins: Vec<u64>,
}

// Writes the present values of the items.
pub(crate) fn keep_row<E: Engine>(engine: &E, row: &mut [u64])
    requires { length row.old ≡ length (E.machine engine.now).items }
    ensures { row.new ≡ (E.present engine.now).items }
{
    for place in 0..row.len() {
        row[place] = engine.value(place);
    }
}

// Adds an item, where its value changed.
fn keep_change(
    changes: &mut Vec<Change>,
    item: usize,
    before: u64,
    now: u64,
) -> Result<(), NoMemory>
    ensures { OnOk result (changes.new.items ≡ with_change changes.old.items item before now) }
{
    if now == before {
        return Ok(());
    }
    changes.push(Change { item, before })?;
    Ok(())
}

// The items whose values differ from those in the row, with the values there.
pub(crate) fn changes_since<E: Engine>(
    alloc: Global,
    engine: &E,
    row: &[u64],
) -> Result<Vec<Change>, NoMemory>
    requires { length row.now ≡ length (E.machine engine.now).items }
    ensures back { IfOk result (λ v. restored v.items (E.present engine.now).items ≡ row.now) }
    ensures places { IfOk result (λ v. All (λ change. change.item < length (E.machine engine.now).items) v.items) }
{
    let mut changes = Vec::new(alloc);
    for item in 0..row.len() {
        keep_change(&mut changes, item, row[item], engine.value(item))?;
    }
    Ok(changes)
}

// Puts the values before back.
pub(crate) fn restore(row: &mut [u64], changes: &[Change])
    requires { All (λ change. change.item < length row.old) changes.now }
    ensures { row.new ≡ restored changes.now row.old }
{
    for change in changes {
        row[change.item] = change.before;
    }
}

// Writes the values of the pins in an edge, and answers the place after the lines that hold in it.
pub(crate) fn play_until(schedule: &Schedule, edge: u32, pins: &mut [u64]) -> usize
    requires { IsPlayable (length pins.old) schedule.now }
    ensures place { IsPlaceAfter schedule.now edge result }
    ensures values { pins.new ≡ after_lines (length pins.old) (take result schedule.now) }
{
    pins.fill(0);
    schedule.play(0, edge, pins)
}

// Makes the edge after so many others, with the schedule's values; the row then has the items' values before it.
pub(crate) fn advance<E: Engine>(
    engine: &mut E,
    schedule: &Schedule,
    edge: u32,
    next: usize,
    row: &mut [u64],
    pins: &mut [u64],
) -> usize
    requires schedule { IsFor (E.machine engine.old).pins schedule.now }
    requires limit { edge < 10000 }
    requires now { let course = course_of (E.machine engine.old) schedule.now in
        E.present engine.old ≡ state_at course edge }
    requires played { let course = course_of (E.machine engine.old) schedule.now in
        IsPlayed course edge next pins.old }
    requires row { length row.old ≡ length (E.machine engine.old).items }
    requires room { length pins.old ≡ length (E.machine engine.old).pins }
    ensures made { let course = course_of (E.machine engine.old) schedule.now in
        let now = course_of (E.machine engine.new) schedule.now in
        HasMade course now (E.present engine.old) (E.present engine.new) (E.touch_list engine.new) edge row.new }
    ensures played { let course = course_of (E.machine engine.old) schedule.now in
        IsPlayed course (edge + 1) result pins.new }
{
    keep_row(engine, row);
    let next = schedule.play(next, edge + 1, pins);
    engine.edge(pins);
    next
}
