//! The turns of levels.

ghost use Rattle.std.specs.Prelude.{◌≡◌, ◌<◌, ◌≤◌, suc, Some, IfOk, OnOk};
ghost use Rattle.std.specs.Option.{option_map};
ghost use Rattle.step_program.specs.Programs.{Temp, expr_tree};
ghost use Rattle.step_pieces.specs.Drafts.{leaf_tree};
ghost use Rattle.pipeline_time.specs.Cores.{level_of_slots};
ghost use Rattle.pipeline_runs.specs.Runs.{acts_of};
ghost use Rattle.pipeline_runs.specs.Turns.{IsPlanOf};
ghost use Rattle.lowered_time.specs.Pieces.{chain, holding, both};
ghost use Rattle.lowered_time.specs.Building.{open_at, waits, due, turn_of, place_word, stage_word, held_after, controls, turn, turns};
ghost use Rattle.lowered_time.specs.Code.{Adds, Makes};

use crate::expressions::{always, both, either, no_bit, none};
use crate::occurrences::{Under, occurrence, own_under};
use crate::parts::Parts;
use crate::temps::{give, held_at, hold_bit, open_at, recorded_at, slot_at};
use lisa_words::{NoMemory, Word};
use pipeline_runs::{Plan, Tree};
use std::alloc::Global;
use step_pieces::{Draft, Leaf};

// Whether an occurrence waits for the turn of its level, under an activator of another one; none where it never does.
fn waits<P: Parts>(
    parts: &P,
    plan: &Plan,
    level: u8,
    above: u8,
    number: u32,
) -> Result<Option<Leaf>, NoMemory>
    requires { IsPlanOf (P.core parts.now) plan.now }
    ensures { IfOk result (λ leaf. option_map leaf_tree leaf ≡ waits (P.core parts.now) (P.operations parts.now) (P.layout parts.now) level above number) }
{
    if above > 0 {
        return match parts.bit(level, number) {
            None => Ok(None),
            Some(place) => Ok(Some(Leaf::Before(place))),
        };
    }
    if level != 1 {
        return Ok(None);
    }
    let temp = recorded_at(plan, number)?;
    Ok(Some(Leaf::Temp(temp)))
}

// An occurrence that is due, where it waits and its level is open.
fn due<P: Parts>(
    alloc: Global,
    parts: &P,
    plan: &Plan,
    level: u8,
    number: u32,
    past: bool,
    own: &Tree,
    waiting: Leaf,
    draft: &mut Draft,
) -> Result<(), NoMemory>
    requires { IsPlanOf (P.core parts.now) plan.now }
    ensures { OnOk result (Adds (due (P.core parts.now) (P.operations parts.now) (P.layout parts.now) level number past (acts_of own.now) (Some (leaf_tree waiting))) draft.old draft.new) }
{
    let open = Leaf::Temp(open_at(level));
    let value = both(alloc, open.expression(), waiting.expression())?;
    let guard = hold_bit(value, draft)?;
    let row = Some(row_of(level));
    let mine = own_under(parts, number, past, Under { row, guard });
    occurrence(alloc, parts, plan, level, mine, number, own, draft)
}

// What of the items under an activator, and of what is below them, is due at a level.
fn turn_of<P: Parts>(
    alloc: Global,
    parts: &P,
    plan: &Plan,
    level: u8,
    above: u8,
    acts: &Tree,
    draft: &mut Draft,
) -> Result<(), NoMemory>
    requires { IsPlanOf (P.core parts.now) plan.now }
    ensures { OnOk result (Adds (turn_of (P.core parts.now) (P.operations parts.now) (P.layout parts.now) level above (acts_of acts.now)) draft.old draft.new) }
{
    match acts {
        Tree::Nothing => Ok(()),
        Tree::Item(number, own_level, past, own, rest) => {
            if *own_level != level {
                turn_of(alloc, parts, plan, level, *own_level, own, draft)?;
            } else if let Some(waiting) = waits(parts, plan, level, above, *number)? {
                due(
                    alloc, parts, plan, level, *number, *past, own, waiting, draft,
                )?;
            }
            turn_of(alloc, parts, plan, level, above, rest, draft)
        }
        Tree::If(_, _, taken, other, rest) => {
            turn_of(alloc, parts, plan, level, above, taken, draft)?;
            turn_of(alloc, parts, plan, level, above, other, draft)?;
            turn_of(alloc, parts, plan, level, above, rest, draft)
        }
    }
}

// Whether the level behind another one is held.
fn held_after<P: Parts>(parts: &P, plan: &Plan, level: u8) -> Leaf
    requires level { level ≤ 8 }
    requires planned { IsPlanOf (P.core parts.now) plan.now }
    ensures { leaf_tree result ≡ held_after (P.core parts.now) (P.operations parts.now) (P.layout parts.now) level }
{
    if u32::from(level) == plan.stages {
        no_bit()
    } else {
        Leaf::Temp(held_at(level + 1))
    }
}

// Whether a level is held, and whether it is open.
fn control<P: Parts>(
    alloc: Global,
    parts: &P,
    plan: &Plan,
    level: u8,
    draft: &mut Draft,
) -> Result<(), NoMemory>
    requires level { level ≤ 8 }
    requires planned { IsPlanOf (P.core parts.now) plan.now }
    ensures { OnOk result (Adds (controls (P.core parts.now) (P.operations parts.now) (P.layout parts.now) level) draft.old draft.new) }
{
    let stalled = parts.stalled(level)?;
    let behind = held_after(parts, plan, level);
    let held = either(alloc, stalled.expression(), behind.expression())?;
    give(always(), held_at(level), held, draft)?;
    let flushed = parts.flushed(level)?;
    let free = none(alloc, Leaf::Temp(held_at(level)).expression())?;
    let kept = none(alloc, flushed.expression())?;
    let open = both(alloc, free, kept)?;
    give(always(), open_at(level), open, draft)
}

// The word that an item has, or 0.
fn place_word<P: Parts>(parts: &P, place: Option<u32>) -> Leaf
    ensures { leaf_tree result ≡ place_word (P.core parts.now) (P.operations parts.now) (P.layout parts.now) place }
{
    match place {
        Some(place) => Leaf::Before(place),
        None => Leaf::Const(Word {
            bits: 0,
            width: parts.width(),
        }),
    }
}

// The level in which slots are made.
fn slot_level(plan: &Plan) -> u8
    ensures { result ≡ level_of_slots plan.now.root_level }
{
    match plan.root_level {
        None => 0,
        Some(0) => 1,
        Some(level) => level,
    }
}

// The word that is moved on from a level.
pub(crate) fn stage_word<P: Parts>(parts: &P, plan: &Plan, level: u8) -> Leaf
    requires { IsPlanOf (P.core parts.now) plan.now }
    ensures { leaf_tree result ≡ stage_word (P.core parts.now) (P.operations parts.now) (P.layout parts.now) level }
{
    if level == slot_level(plan) {
        Leaf::Temp(slot_at())
    } else {
        place_word(parts, parts.place_of_word(level))
    }
}

// The turn of a level, with the items of `main`.
fn turn<P: Parts>(
    alloc: Global,
    parts: &P,
    plan: &Plan,
    level: u8,
    acts: &Tree,
    draft: &mut Draft,
) -> Result<(), NoMemory>
    requires above { 0 < level }
    requires level { level ≤ 8 }
    requires planned { IsPlanOf (P.core parts.now) plan.now }
    requires acts { acts_of acts.now ≡ (P.core parts.now).acts }
    ensures { OnOk result (Adds (turn (P.core parts.now) (P.operations parts.now) (P.layout parts.now) level) draft.old draft.new) }
{
    control(alloc, parts, plan, level, draft)?;
    let word = stage_word(parts, plan, level);
    parts.load(alloc, row_of(level), word, draft)?;
    turn_of(alloc, parts, plan, level, 0, acts, draft)
}

/// The turns of the levels up to one, from the last one to the first.
pub(crate) fn turns<P: Parts>(
    alloc: Global,
    parts: &P,
    plan: &Plan,
    level: u8,
    acts: &Tree,
    draft: &mut Draft,
) -> Result<(), NoMemory>
    requires level { level ≤ 8 }
    requires planned { IsPlanOf (P.core parts.now) plan.now }
    requires acts { acts_of acts.now ≡ (P.core parts.now).acts }
    ensures { OnOk result (Adds (turns (P.core parts.now) (P.operations parts.now) (P.layout parts.now) level) draft.old draft.new) }
{
    if level == 0 {
        return Ok(());
    }
    turn(alloc, parts, plan, level, acts, draft)?;
    turns(alloc, parts, plan, level - 1, acts, draft)
}

// The row of a level's word.
fn row_of(level: u8) -> u32
    ensures { result ≡ suc level }
{
    u32::from(level) + 1
}
