// The parts of which the programs are made.
ghost use Rattle.std.specs.Prelude.{◌≤◌, ◌<◌, ◌^◌};

use lisa_engine::{ArrayItem, Item};
use lisa_words::{Name, NoMemory, Word};
use std::alloc::Global;
use step_program::{OneOp, Step, StepExpr, Target, TwoOp};

pub fn constant(width: u32, bits: u64) -> StepExpr
    requires at_least_one { 1 ≤ width }
    requires at_most_64 { width ≤ 64 }
    requires fits { bits < 2 ^ width }
{
    StepExpr::Const(Word { bits, width })
}

pub fn always() -> StepExpr {
    constant(1, 1)
}

pub fn item(alloc: Global, name: &[u8], width: u32) -> Result<Item, NoMemory> {
    let name = Name::from_bytes(alloc, name)?;
    Ok(Item { name, width })
}

pub fn array(alloc: Global, name: &[u8], width: u32) -> Result<ArrayItem, NoMemory> {
    let name = Name::from_bytes(alloc, name)?;
    Ok(ArrayItem {
        name,
        width,
        depth: 2,
    })
}

pub fn cell(alloc: Global, array: u32, index: StepExpr) -> Result<StepExpr, NoMemory> {
    Ok(StepExpr::Cell(array, Box::new(alloc, index)?))
}

pub fn one(alloc: Global, one: OneOp, a: StepExpr) -> Result<StepExpr, NoMemory> {
    Ok(StepExpr::One(one, Box::new(alloc, a)?))
}

pub fn two(alloc: Global, two: TwoOp, a: StepExpr, b: StepExpr) -> Result<StepExpr, NoMemory> {
    let a = Box::new(alloc, a)?;
    let b = Box::new(alloc, b)?;
    Ok(StepExpr::Two(two, a, b))
}

pub fn sum(alloc: Global, a: StepExpr, b: StepExpr) -> Result<StepExpr, NoMemory> {
    two(alloc, TwoOp::Add, a, b)
}

/// The item takes the value at each edge.
pub fn set(item: u32, value: StepExpr) -> Step {
    Step {
        guard: always(),
        target: Target::Item(item),
        value,
    }
}

/// The cell takes the value at each edge.
pub fn put(array: u32, index: StepExpr, value: StepExpr) -> Step {
    Step {
        guard: always(),
        target: Target::Cell(array, index),
        value,
    }
}
