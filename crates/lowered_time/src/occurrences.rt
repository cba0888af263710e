//! Occurrences and their items, under guards.

ghost use Rattle.std.specs.Prelude.{◌≡◌, ◌≤◌, ◌&&◌, [], ◌∷◌, nat_eq, Some, IfOk, OnOk};
ghost use Rattle.step_program.specs.Programs.{ToTemp, expr_tree};
ghost use Rattle.step_pieces.specs.Pieces.{always};
ghost use Rattle.step_pieces.specs.Drafts.{leaf_tree};
ghost use Rattle.pipeline_runs.specs.Runs.{acts_of};
ghost use Rattle.pipeline_runs.specs.Turns.{IsPlanOf};
ghost use Rattle.lowered_time.specs.Pieces.{chain, holding, both, none};
ghost use Rattle.lowered_time.specs.Building.{own_row, chosen, slotted, rooted, recorded, occurrence, is_idle, active};
ghost use Rattle.lowered_time.specs.Code.{Adds, Makes};

use crate::expressions::{always, both, none};
use crate::parts::Parts;
use crate::temps::{give, hold_bit, recorded_at, slot_at, taken_at};
use lisa_words::NoMemory;
use pipeline_runs::{Plan, Tree};
use std::alloc::Global;
use step_pieces::{Draft, Leaf};

// What something runs under: the row of its word, and a guard.
#[derive(Clone, Copy)]
pub(crate) struct Under {
    pub(crate) row: Option<u32>,
    pub(crate) guard: Leaf,
}

// A guard and another test.
fn hold_both(alloc: Global, guard: Leaf, test: Leaf, draft: &mut Draft) -> Result<Leaf, NoMemory>
    ensures { IfOk result (λ out. Makes (holding 1 (both (leaf_tree guard) (leaf_tree test))) draft.old draft.new out) }
{
    let value = both(alloc, guard.expression(), test.expression())?;
    hold_bit(value, draft)
}

// A guard, and that a test doesn't hold.
fn hold_unless(alloc: Global, guard: Leaf, test: Leaf, draft: &mut Draft) -> Result<Leaf, NoMemory>
    ensures { IfOk result (λ out. Makes (holding 1 (both (leaf_tree guard) (none (leaf_tree test)))) draft.old draft.new out) }
{
    let test = none(alloc, test.expression())?;
    let value = both(alloc, guard.expression(), test)?;
    hold_bit(value, draft)
}

// What an occurrence runs under.
pub(crate) fn own_under<P: Parts>(parts: &P, number: u32, past: bool, under: Under) -> Under
    ensures row { result.row ≡ own_row (P.core parts.now) (P.operations parts.now) (P.layout parts.now) number past under.row }
    ensures guard { result.guard ≡ under.guard }
{
    let row = if parts.is_root(number) {
        Some(0)
    } else if past {
        under.row
    } else {
        None
    };
    Under {
        row,
        guard: under.guard,
    }
}

// The guard under which an occurrence is chosen: what isn't past the root is chosen always.
fn chosen<P: Parts>(
    alloc: Global,
    parts: &P,
    number: u32,
    past: bool,
    under: Under,
    draft: &mut Draft,
) -> Result<Leaf, NoMemory>
    ensures { IfOk result (λ out. Makes (chosen (P.core parts.now) (P.operations parts.now) (P.layout parts.now) number past under.row (leaf_tree under.guard)) draft.old draft.new out) }
{
    if !past {
        return Ok(under.guard);
    }
    match under.row {
        None => Ok(under.guard),
        Some(row) => {
            let chooses = parts.chooses(row, number)?;
            hold_both(alloc, under.guard, chooses, draft)
        }
    }
}

// The slot gets the root's word, where it decodes.
fn make_slot<P: Parts>(
    alloc: Global,
    parts: &P,
    guard: Leaf,
    draft: &mut Draft,
) -> Result<(), NoMemory>
    ensures { OnOk result (Adds (slotted (P.core parts.now) (P.operations parts.now) (P.layout parts.now) (leaf_tree guard)) draft.old draft.new) }
{
    let decodes = parts.decodes(0)?;
    let decoded = hold_both(alloc, guard, decodes, draft)?;
    let word = parts.word(0)?;
    give(decoded, slot_at(), word.expression(), draft)?;
    give(decoded, taken_at(), always().expression(), draft)
}

// The root takes its word.
fn take_word<P: Parts>(
    alloc: Global,
    parts: &P,
    number: u32,
    guard: Leaf,
    draft: &mut Draft,
) -> Result<(), NoMemory>
    ensures { OnOk result (Adds (rooted (P.core parts.now) (P.operations parts.now) (P.layout parts.now) ((P.core parts.now).is_root number) (leaf_tree guard)) draft.old draft.new) }
{
    if !parts.is_root(number) {
        return Ok(());
    }
    let word = parts.fetch(alloc, draft)?;
    parts.load(alloc, 0, word, draft)?;
    make_slot(alloc, parts, guard, draft)
}

// The word of an occurrence and its BEHAVIOR, under what it runs.
fn begin<P: Parts>(
    alloc: Global,
    parts: &P,
    number: u32,
    own: Under,
    draft: &mut Draft,
) -> Result<(), NoMemory>
    ensures { OnOk result (Adds (chain (rooted (P.core parts.now) (P.operations parts.now) (P.layout parts.now) ((P.core parts.now).is_root number) (leaf_tree own.guard)) ((P.operations parts.now).behavior number own.row (leaf_tree own.guard))) draft.old draft.new) }
{
    take_word(alloc, parts, number, own.guard, draft)?;
    parts.behavior(alloc, number, own.row, own.guard, draft)
}

// An occurrence of a later level is recorded.
fn record<P: Parts>(
    parts: &P,
    plan: &Plan,
    number: u32,
    guard: Leaf,
    draft: &mut Draft,
) -> Result<(), NoMemory>
    requires { IsPlanOf (P.core parts.now) plan.now }
    ensures { OnOk result (Adds (recorded (P.core parts.now) (P.operations parts.now) (P.layout parts.now) number (leaf_tree guard)) draft.old draft.new) }
{
    let temp = recorded_at(plan, number)?;
    give(guard, temp, always().expression(), draft)
}

// Whether an occurrence has neither anything to do nor items.
fn is_idle<P: Parts>(parts: &P, number: u32, own: &Tree) -> bool
    ensures { result ≡ is_idle (P.core parts.now) (P.operations parts.now) (P.layout parts.now) number (acts_of own.now) }
{
    match own {
        Tree::Nothing => parts.is_idle(number),
        Tree::Item(..) | Tree::If(..) => false,
    }
}

// Whether an item takes no steps: an idle one that would run at this level.
fn is_left_out<P: Parts>(parts: &P, here: u8, number: u32, level: u8, own: &Tree) -> bool
    ensures { result ≡ (nat_eq level here && is_idle (P.core parts.now) (P.operations parts.now) (P.layout parts.now) number (acts_of own.now)) }
{
    level == here && is_idle(parts, number, own)
}

/// The items under an activator that runs at a level: those of that level with all that they lead to there, but for an idle one, which takes
/// no steps; and those of another level are recorded.
pub(crate) fn active<P: Parts>(
    alloc: Global,
    parts: &P,
    plan: &Plan,
    here: u8,
    under: Under,
    acts: &Tree,
    draft: &mut Draft,
) -> Result<(), NoMemory>
    requires { IsPlanOf (P.core parts.now) plan.now }
    ensures { OnOk result (Adds (active (P.core parts.now) (P.operations parts.now) (P.layout parts.now) here under.row (leaf_tree under.guard) (acts_of acts.now)) draft.old draft.new) }
{
    match acts {
        Tree::Nothing => Ok(()),
        Tree::Item(number, level, past, own, rest) => {
            if is_left_out(parts, here, *number, *level, own) {
                return active(alloc, parts, plan, here, under, rest, draft);
            }
            let guard = chosen(alloc, parts, *number, *past, under, draft)?;
            if *level == here {
                let row = under.row;
                let mine = own_under(parts, *number, *past, Under { row, guard });
                begin(alloc, parts, *number, mine, draft)?;
                active(alloc, parts, plan, here, mine, own, draft)?;
            } else {
                record(parts, plan, *number, guard, draft)?;
            }
            active(alloc, parts, plan, here, under, rest, draft)
        }
        Tree::If(number, test, taken, other, rest) => {
            let row = under.row;
            let holds = parts.condition(alloc, *number, *test, row, draft)?;
            let taking = hold_both(alloc, under.guard, holds, draft)?;
            let leaving = hold_unless(alloc, under.guard, holds, draft)?;
            let first = Under { row, guard: taking };
            active(alloc, parts, plan, here, first, taken, draft)?;
            let second = Under {
                row,
                guard: leaving,
            };
            active(alloc, parts, plan, here, second, other, draft)?;
            active(alloc, parts, plan, here, under, rest, draft)
        }
    }
}

// An occurrence with all that it leads to at its level.
pub(crate) fn occurrence<P: Parts>(
    alloc: Global,
    parts: &P,
    plan: &Plan,
    here: u8,
    own: Under,
    number: u32,
    acts: &Tree,
    draft: &mut Draft,
) -> Result<(), NoMemory>
    requires { IsPlanOf (P.core parts.now) plan.now }
    ensures { OnOk result (Adds (chain (rooted (P.core parts.now) (P.operations parts.now) (P.layout parts.now) ((P.core parts.now).is_root number) (leaf_tree own.guard)) (chain ((P.operations parts.now).behavior number own.row (leaf_tree own.guard)) (active (P.core parts.now) (P.operations parts.now) (P.layout parts.now) here own.row (leaf_tree own.guard) (acts_of acts.now)))) draft.old draft.new) }
{
    begin(alloc, parts, number, own, draft)?;
    active(alloc, parts, plan, here, own, acts, draft)
}
