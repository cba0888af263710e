//! Bits and words as an edge ends.

ghost use Rattle.std.specs.Prelude.{◌≡◌, ◌<◌, ◌≤◌, suc, IfOk, OnOk};
ghost use Rattle.step_program.specs.Programs.{expr_tree};
ghost use Rattle.step_pieces.specs.Drafts.{leaf_tree};
ghost use Rattle.pipeline_time.specs.Acts.{size};
ghost use Rattle.pipeline_time.specs.Cores.{above_of};
ghost use Rattle.pipeline_time.specs.Sound.{IsSound};
ghost use Rattle.pipeline_runs.specs.Turns.{IsPlanOf};
ghost use Rattle.lowered_time.specs.Pieces.{steps};
ghost use Rattle.lowered_time.specs.Building.{stays, came, next_bit, next_word, set_place, bit_ends, ends};
ghost use Rattle.lowered_time.specs.Code.{Adds};

use crate::expressions::{both, choose, either, no_bit, none};
use crate::parts::Parts;
use crate::temps::{give_item, held_at, open_at, recorded_at};
use crate::turn_steps::stage_word;
use lisa_words::{NoMemory, Word};
use pipeline_runs::Plan;
use std::alloc::Global;
use step_pieces::{Draft, Leaf};
use step_program::StepExpr;

// Whether what stands at a level stays there.
fn stays<P: Parts>(alloc: Global, parts: &P, level: u8) -> Result<StepExpr, NoMemory>
    ensures { IfOk result (λ e. expr_tree e ≡ stays (P.core parts.now) (P.operations parts.now) (P.layout parts.now) level) }
{
    let flushed = parts.flushed(level)?;
    let kept = none(alloc, flushed.expression())?;
    both(alloc, Leaf::Temp(held_at(level)).expression(), kept)
}

// Whether an occurrence stood at a level, or was recorded where that is its activator's.
fn came<P: Parts>(
    parts: &P,
    plan: &Plan,
    level: u8,
    number: u32,
    above: u8,
) -> Result<Leaf, NoMemory>
    requires planned { IsPlanOf (P.core parts.now) plan.now }
    requires above { above ≡ above_of (P.core parts.now) number }
    ensures { IfOk result (λ leaf. leaf_tree leaf ≡ came (P.core parts.now) (P.operations parts.now) (P.layout parts.now) level number) }
{
    if level == above {
        let temp = recorded_at(plan, number)?;
        return Ok(Leaf::Temp(temp));
    }
    match parts.bit(level, number) {
        None => Ok(no_bit()),
        Some(place) => Ok(Leaf::Before(place)),
    }
}

// The next bit of an occurrence at the level behind this one.
fn next_bit<P: Parts>(
    alloc: Global,
    parts: &P,
    plan: &Plan,
    level: u8,
    number: u32,
    above: u8,
    place: u32,
) -> Result<StepExpr, NoMemory>
    requires level { level < 8 }
    requires planned { IsPlanOf (P.core parts.now) plan.now }
    requires above { above ≡ above_of (P.core parts.now) number }
    ensures { IfOk result (λ e. expr_tree e ≡ next_bit (P.core parts.now) (P.operations parts.now) (P.layout parts.now) level number place) }
{
    let stays = stays(alloc, parts, level + 1)?;
    let still = both(alloc, Leaf::Before(place).expression(), stays)?;
    let came = came(parts, plan, level, number, above)?;
    let open = Leaf::Temp(open_at(level));
    let new = both(alloc, open.expression(), came.expression())?;
    either(alloc, still, new)
}

// The next word of the level behind this one.
fn next_word<P: Parts>(
    alloc: Global,
    parts: &P,
    plan: &Plan,
    level: u8,
    place: u32,
) -> Result<StepExpr, NoMemory>
    requires level { level < 8 }
    requires planned { IsPlanOf (P.core parts.now) plan.now }
    ensures { IfOk result (λ e. expr_tree e ≡ next_word (P.core parts.now) (P.operations parts.now) (P.layout parts.now) level place) }
{
    let no_word = Leaf::Const(Word {
        bits: 0,
        width: parts.width(),
    });
    let held = Leaf::Temp(held_at(level + 1)).expression();
    let flushed = parts.flushed(level + 1)?.expression();
    let place = Leaf::Before(place).expression();
    let still = choose(alloc, flushed, no_word.expression(), place)?;
    let open = Leaf::Temp(open_at(level)).expression();
    let word = stage_word(parts, plan, level).expression();
    let new = choose(alloc, open, word, no_word.expression())?;
    choose(alloc, held, still, new)
}

// An occurrence's bit at the level behind this one.
fn set_bit<P: Parts>(
    alloc: Global,
    parts: &P,
    plan: &Plan,
    level: u8,
    number: u32,
    above: u8,
    draft: &mut Draft,
) -> Result<(), NoMemory>
    requires level { level < 8 }
    requires planned { IsPlanOf (P.core parts.now) plan.now }
    requires above { above ≡ above_of (P.core parts.now) number }
    ensures { OnOk result (Adds (steps (set_place (P.core parts.now) (P.operations parts.now) (P.layout parts.now) ((P.layout parts.now).bit (suc level) number) (next_bit (P.core parts.now) (P.operations parts.now) (P.layout parts.now) level number))) draft.old draft.new) }
{
    match parts.bit(level + 1, number) {
        None => Ok(()),
        Some(place) => {
            let value = next_bit(alloc, parts, plan, level, number, above, place)?;
            give_item(place, value, draft)
        }
    }
}

// The bits of all occurrences at the level behind this one.
fn set_bits<P: Parts>(
    alloc: Global,
    parts: &P,
    plan: &Plan,
    level: u8,
    draft: &mut Draft,
) -> Result<(), NoMemory>
    requires level { level < 8 }
    requires sound { IsSound (P.core parts.now) }
    requires planned { IsPlanOf (P.core parts.now) plan.now }
    ensures { OnOk result (Adds (steps (bit_ends (P.core parts.now) (P.operations parts.now) (P.layout parts.now) level (suc (size (P.core parts.now).acts)))) draft.old draft.new) }
{
    for occurrence in &plan.occurrences {
        let number = occurrence.number;
        set_bit(alloc, parts, plan, level, number, occurrence.above, draft)?;
    }
    Ok(())
}

// The word of the level behind this one.
fn set_word<P: Parts>(
    alloc: Global,
    parts: &P,
    plan: &Plan,
    level: u8,
    draft: &mut Draft,
) -> Result<(), NoMemory>
    requires level { level < 8 }
    requires planned { IsPlanOf (P.core parts.now) plan.now }
    ensures { OnOk result (Adds (steps (set_place (P.core parts.now) (P.operations parts.now) (P.layout parts.now) ((P.layout parts.now).word (suc level)) (next_word (P.core parts.now) (P.operations parts.now) (P.layout parts.now) level))) draft.old draft.new) }
{
    match parts.place_of_word(level + 1) {
        None => Ok(()),
        Some(place) => {
            let value = next_word(alloc, parts, plan, level, place)?;
            give_item(place, value, draft)
        }
    }
}

/// The bits and words of the levels up to one.
pub(crate) fn set_ends<P: Parts>(
    alloc: Global,
    parts: &P,
    plan: &Plan,
    level: u8,
    draft: &mut Draft,
) -> Result<(), NoMemory>
    requires level { level ≤ 8 }
    requires sound { IsSound (P.core parts.now) }
    requires planned { IsPlanOf (P.core parts.now) plan.now }
    ensures { OnOk result (Adds (steps (ends (P.core parts.now) (P.operations parts.now) (P.layout parts.now) level)) draft.old draft.new) }
{
    if level == 0 {
        return Ok(());
    }
    set_ends(alloc, parts, plan, level - 1, draft)?;
    set_bits(alloc, parts, plan, level - 1, draft)?;
    set_word(alloc, parts, plan, level - 1, draft)
}
