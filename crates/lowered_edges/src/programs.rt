//! The step program of a description.

ghost use Rattle.std.specs.Prelude.{◌≡◌, ◌≤◌, ◌++◌, ◌-◌, IfOk, length, replicate};
ghost use Rattle.lisa_tree.specs.Descriptions.{description_tree};
ghost use Rattle.lisa_tree.specs.Resources.{stages};
ghost use Rattle.machine_parts.specs.Parts.{first_values};
ghost use Rattle.activation_plans.specs.lisa_forms.Parts.{AreFormsOf};
ghost use Rattle.activation_plans.specs.lisa_forms.Verdicts.{HasForms};
ghost use Rattle.activation_plans.specs.lisa_forms.Codings.{IsCodingOf};
ghost use Rattle.pipeline_time.specs.Sound.{IsSound};
ghost use Rattle.pipeline_runs.specs.Turns.{IsPlanOf};
ghost use Rattle.activation_plans.specs.lisa_meaning.Cores.{core_of};
ghost use Rattle.lowered_behaviors.specs.scene_paths.Lookups.{tree_of};
ghost use Rattle.step_program.specs.Programs.{program_tree};
ghost use Rattle.step_pieces.specs.Drafts.{piece_of};
ghost use Rattle.lowered_layouts.specs.lowered_words.Rows.{IsWordWidth};
ghost use Rattle.lowered_edges.specs.Programs.{word_width};
ghost use Rattle.lowered_edges.specs.Code.{parts_tree, parts_piece, IsEdge, IsEdgeProgram};

use crate::edge_parts::EdgeParts;
use activation_plans::laws::cores_are_sound;
use activation_plans::{Coding, Forms, Machine, make_plan};
use description_tables::Tables;
use lisa_engine::{ArrayItem, Item};
use lisa_words::NoMemory;
use lowered_behaviors::{Described, NameTypes};
use lowered_layouts::{Positions, Words};
use lowered_time::lower_edge;
use machine_parts::first_values;
use pipeline_runs::Plan;
use program_declarations::sizes_are_limited;
use std::alloc::Global;
use step_pieces::Draft;
use step_program::StepProgram;

fn copied_item(item: &Item) -> Result<Item, NoMemory>
    ensures { IfOk result (λ copy. copy ≡ item.now) }
{
    let name = item.name.clone()?;
    Ok(Item {
        name,
        width: item.width,
    })
}

fn copied_items(alloc: Global, items: &[Item]) -> Result<Vec<Item>, NoMemory>
    ensures { IfOk result (λ copies. copies.items ≡ items.now) }
{
    let mut copies = Vec::new(alloc);
    for item in items {
        let copy = copied_item(item)?;
        copies.push(copy)?;
    }
    Ok(copies)
}

fn copied_array(array: &ArrayItem) -> Result<ArrayItem, NoMemory>
    ensures { IfOk result (λ copy. copy ≡ array.now) }
{
    let name = array.name.clone()?;
    Ok(ArrayItem {
        name,
        width: array.width,
        depth: array.depth,
    })
}

fn copied_arrays(alloc: Global, arrays: &[ArrayItem]) -> Result<Vec<ArrayItem>, NoMemory>
    ensures { IfOk result (λ copies. copies.items ≡ arrays.now) }
{
    let mut copies = Vec::new(alloc);
    for array in arrays {
        let copy = copied_array(array)?;
        copies.push(copy)?;
    }
    Ok(copies)
}

// What so many items hold first: what `reset` leaves in registers, and zeros behind them.
fn firsts(alloc: Global, machine: &Machine, count: usize) -> Result<Vec<u64>, NoMemory>
    ensures { IfOk result (λ all. all.items ≡ first_values (description_tree machine.now) ++ replicate (count - length (first_values (description_tree machine.now))) 0) }
{
    let tables = Tables::make(alloc, machine.description())?;
    let mut all = first_values(alloc, &tables)?;
    'each: for place in all.len()..count {
        all.push(0)?;
    }
    Ok(all)
}

// The width of words.
fn word_width(machine: &Machine, forms: &Forms) -> u32
    requires forms { AreFormsOf (description_tree machine.now) forms.now }
    ensures value { result ≡ word_width forms.now.width }
    ensures words { IsWordWidth (description_tree machine.now) result }
{
    machine.accepted();
    match forms.width() {
        None => 1,
        Some(width) => width,
    }
}

// The plan of a description's pipeline.
fn plan_of(alloc: Global, machine: &Machine, forms: &Forms) -> Result<Plan, NoMemory>
    requires forms { AreFormsOf (description_tree machine.now) forms.now }
    requires few { length (stages (description_tree machine.now)) ≤ 8 }
    ensures { IfOk result (λ plan. IsPlanOf (core_of (description_tree machine.now)) plan) }
{
    let tables = Tables::make(alloc, machine.description())?;
    make_plan(alloc, &tables, forms.occurrences())
}

// The temps that last, and then the temps and steps of an edge.
fn draft_parts(alloc: Global, parts: &EdgeParts<'_>, plan: &Plan) -> Result<Draft, NoMemory>
    requires sound { IsSound (core_of (parts_tree parts.now)) }
    requires planned { IsPlanOf (core_of (parts_tree parts.now)) plan.now }
    requires width { parts.now.positions.now.width ≡ parts.now.width }
    ensures { IfOk result (λ draft. piece_of draft ≡ parts_piece parts.now) }
{
    let temps = parts.positions.lasting_widths(alloc)?;
    let steps = Vec::new(alloc);
    let mut draft = Draft { temps, steps };
    lower_edge(alloc, parts, plan, &mut draft)?;
    Ok(draft)
}

// The temps and steps of a description.
fn draft_edge(
    alloc: Global,
    machine: &Machine,
    described: &Described<'_>,
    width: u32,
) -> Result<Draft, NoMemory>
    requires tree { tree_of described.now ≡ description_tree machine.now }
    requires has_forms { HasForms (description_tree machine.now) }
    requires wide { IsWordWidth (description_tree machine.now) width }
    ensures { IfOk result (λ draft. IsEdge (description_tree machine.now) width (piece_of draft)) }
{
    machine.accepted();
    cores_are_sound();
    sizes_are_limited();
    let types = NameTypes::make(alloc, machine)?;
    let words = Words::make(alloc, machine, described)?;
    let row_size = words.row_size()?;
    let positions = Positions::make(alloc, machine, described, row_size, width)?;
    let plan = plan_of(alloc, machine, described.forms())?;
    let parts = EdgeParts {
        types: &types,
        words: &words,
        positions: &positions,
        width,
    };
    let draft = draft_parts(alloc, &parts, &plan)?;
    Ok(draft)
}

/// The step program of an accepted description. The only other answer is want of memory, or of numbers for temps.
pub fn lower_edges(
    alloc: Global,
    machine: &Machine,
    forms: &Forms,
    coding: &Coding,
) -> Result<StepProgram, NoMemory>
    requires forms { AreFormsOf (description_tree machine.now) forms.now }
    requires coding { IsCodingOf (description_tree machine.now) coding.now }
    ensures { IfOk result (λ p. IsEdgeProgram (description_tree machine.now) forms.now.width (program_tree p)) }
{
    let described = Described::make(alloc, machine, forms, coding)?;
    let width = word_width(machine, forms);
    let Draft { temps, steps } = draft_edge(alloc, machine, &described, width)?;
    let items = copied_items(alloc, forms.items())?;
    let arrays = copied_arrays(alloc, machine.arrays())?;
    let pins = copied_items(alloc, machine.pins())?;
    let first = firsts(alloc, machine, items.len())?;
    Ok(StepProgram {
        items,
        arrays,
        pins,
        first,
        temps,
        steps,
    })
}
