// Programs that are well formed.
ghost use Rattle.std.specs.Prelude.{◌≡◌, ◌≤◌, ◌↔◌, ◌^◌, IsTrue, length, sum_by, nat_lt};
ghost use Rattle.std.specs.List.{list_all};
ghost use Rattle.step_program.specs.Programs.{move_of, program_tree};
ghost use Rattle.step_program.specs.WellFormed.{IsWellFormed};
ghost use Rattle.step_program.specs.Decided.{is_width, is_declared, is_depth, is_stored, are_firsts, is_counted, is_named, is_move, is_well_formed};

use crate::fitting::{is_move, needs};
use crate::naming::is_free_name;
use crate::programs::StepProgram;
use lisa_engine::{ArrayItem, Item};

fn is_width(width: u32) -> bool
    ensures { result ≡ is_width width }
{
    1 <= width && width <= 64
}

fn is_declared(item: &Item) -> bool
    ensures { result ≡ is_declared item.now }
{
    is_free_name(&item.name) && is_width(item.width)
}

const EXPONENTS: [u32; 20] = [
    1, 2, 3, 4, 5, 6, 7, 8, 9, 10, 11, 12, 13, 14, 15, 16, 17, 18, 19, 20,
];

// Whether an array can be so deep.
fn is_depth(depth: u32) -> bool
    ensures { result ≡ is_depth depth }
{
    EXPONENTS.iter().any(|width| needs(depth, *width))
}

fn is_stored(array: &ArrayItem) -> bool
    ensures { result ≡ is_stored array.now }
{
    is_free_name(&array.name) && is_width(array.width) && is_depth(array.depth)
}

// Whether a value is within a width.
fn is_within(value: u64, width: u32) -> bool
    ensures { result ≡ nat_lt value (2 ^ width) }
{
    width >= 64 || value < 1 << width
}

// Whether there is one value for each item, within its width.
fn are_firsts(items: &[Item], first: &[u64]) -> bool
    ensures { result ≡ are_firsts items.now first.now }
{
    match items {
        [] => first.is_empty(),
        [item, items @ ..] => match first {
            [] => false,
            [value, first @ ..] => is_within(*value, item.width) && are_firsts(items, first),
        },
    }
}

// How many cells the arrays have in all.
fn cell_count(arrays: &[ArrayItem]) -> u64
    requires { length arrays.now ≤ 1024 }
    ensures { result ≡ sum_by (λ array. array.depth) arrays.now }
{
    let mut count = 0;
    for array in arrays {
        count += array.depth as u64;
    }
    count
}

fn is_counted(program: &StepProgram) -> bool
    ensures { result ≡ is_counted (program_tree program.now) }
{
    program.items.len() <= 8_192
        && program.arrays.len() <= 1_024
        && program.pins.len() <= 64
        && cell_count(&program.arrays) <= 4_194_304
}

fn all_declared(items: &[Item]) -> bool
    ensures { result ≡ list_all is_declared items.now }
{
    items.iter().all(is_declared)
}

fn all_stored(arrays: &[ArrayItem]) -> bool
    ensures { result ≡ list_all is_stored arrays.now }
{
    arrays.iter().all(is_stored)
}

fn all_widths(temps: &[u32]) -> bool
    ensures { result ≡ list_all is_width temps.now }
{
    temps.iter().all(|width| is_width(*width))
}

fn is_named(program: &StepProgram) -> bool
    ensures { result ≡ is_named (program_tree program.now) }
{
    all_declared(&program.items)
        && all_stored(&program.arrays)
        && all_declared(&program.pins)
        && all_widths(&program.temps)
}

// Whether all steps' places are there and their widths fit.
fn are_moves(program: &StepProgram) -> bool
    ensures { result ≡ list_all (is_move (program_tree program.now)) (program_tree program.now).moves }
{
    for step in &program.steps {
        if !is_move(program, step) {
            return false;
        }
    }
    true
}

fn decide(program: &StepProgram) -> bool
    ensures { result ≡ is_well_formed (program_tree program.now) }
{
    is_counted(program)
        && is_named(program)
        && are_firsts(&program.items, &program.first)
        && are_moves(program)
}

/// Whether names, places, widths and counts are as they must be. It takes no memory.
pub fn well_formed(program: &StepProgram) -> bool
    ensures { IsTrue result ↔ IsWellFormed (program_tree program.now) }
{
    decide(program)
}
