// Expressions whose places are there and whose widths fit.
ghost use Rattle.std.specs.Prelude.{◌≡◌};
ghost use Rattle.step_program.specs.Programs.{expr_tree, aim_of, move_of, program_tree};
ghost use Rattle.step_program.specs.Decided.{needs, width_if, one_fit, two_fit, item_fit, cell_fit, fit, aim_fit, move_fit, is_move};

use crate::expressions::{OneOp, StepExpr, TwoOp};
use crate::programs::{Step, StepProgram, Target};
use lisa_engine::{ArrayItem, Item};

// Whether a depth is 2^width.
pub fn needs(depth: u32, width: u32) -> bool
    ensures { result ≡ needs depth width }
{
    width < 32 && 1 << width == depth
}

fn width_if(fits: bool, width: u32) -> Option<u32>
    ensures { result ≡ width_if fits width }
{
    if fits { Some(width) } else { None }
}

fn one_fit(one: OneOp, width: u32) -> Option<u32>
    ensures { result ≡ one_fit one width }
{
    match one {
        OneOp::Not => Some(width),
        OneOp::Cut(narrow) => width_if(1 <= narrow && narrow <= width, narrow),
        OneOp::Widen(wide) => width_if(width <= wide && wide <= 64, wide),
    }
}

fn two_fit(two: TwoOp, left: u32, right: u32) -> Option<u32>
    ensures { result ≡ two_fit two left right }
{
    match two {
        TwoOp::Shl | TwoOp::Shr => Some(left),
        TwoOp::Equal | TwoOp::Less => width_if(left == right, 1),
        TwoOp::Add | TwoOp::Sub | TwoOp::Mul | TwoOp::And | TwoOp::Or | TwoOp::Xor => {
            width_if(left == right, left)
        }
    }
}

fn item_fit(items: &[Item], place: u32) -> Option<u32>
    ensures { result ≡ item_fit items.now place }
{
    Some(items.get(place as usize)?.width)
}

fn cell_fit(arrays: &[ArrayItem], array: u32, index: u32) -> Option<u32>
    ensures { result ≡ cell_fit arrays.now array index }
{
    let array = arrays.get(array as usize)?;
    width_if(needs(array.depth, index), array.width)
}

// The width of an expression that fits.
fn fit(program: &StepProgram, e: &StepExpr) -> Option<u32>
    ensures { result ≡ fit (program_tree program.now) (expr_tree e.now) }
{
    match e {
        StepExpr::Const(word) => Some(word.width),
        StepExpr::Item(item) | StepExpr::Before(item) => item_fit(&program.items, *item),
        StepExpr::Pin(pin) => item_fit(&program.pins, *pin),
        StepExpr::Temp(temp) => program.temps.get(*temp as usize).copied(),
        StepExpr::Cell(array, index) => {
            let index = fit(program, index)?;
            cell_fit(&program.arrays, *array, index)
        }
        StepExpr::One(one, a) => one_fit(*one, fit(program, a)?),
        StepExpr::Two(two, a, b) => {
            let left = fit(program, a)?;
            let right = fit(program, b)?;
            two_fit(*two, left, right)
        }
        StepExpr::Choose(test, this, other) => {
            let _ = fit(program, test)?;
            let left = fit(program, this)?;
            let right = fit(program, other)?;
            width_if(left == right, left)
        }
    }
}

fn aim_fit(program: &StepProgram, target: &Target) -> Option<u32>
    ensures { result ≡ aim_fit (program_tree program.now) (aim_of target.now) }
{
    match target {
        Target::Item(item) => item_fit(&program.items, *item),
        Target::Temp(temp) => program.temps.get(*temp as usize).copied(),
        Target::Cell(array, index) => {
            let index = fit(program, index)?;
            cell_fit(&program.arrays, *array, index)
        }
    }
}

fn move_fit(program: &StepProgram, step: &Step) -> Option<u32>
    ensures { result ≡ move_fit (program_tree program.now) (move_of step.now) }
{
    let _ = fit(program, &step.guard)?;
    let value = fit(program, &step.value)?;
    let target = aim_fit(program, &step.target)?;
    width_if(value == target, target)
}

// Whether a step's places are there and its widths fit.
pub fn is_move(program: &StepProgram, step: &Step) -> bool
    ensures { result ≡ is_move (program_tree program.now) (move_of step.now) }
{
    move_fit(program, step).is_some()
}
