// Step programs.
use crate::expressions::StepExpr;
use lisa_engine::{ArrayItem, Item};

/// What a step assigns.
#[derive(Debug, Drop)]
pub enum Target {
    Item(u32),
    Temp(u32),
    /// The cell of an array at an index.
    Cell(u32, StepExpr),
}

/// A guarded assignment: where the guard isn't 0, the target takes the value.
#[derive(Debug, Drop)]
pub struct Step {
    pub guard: StepExpr,
    pub target: Target,
    pub value: StepExpr,
}

/// What is done at each edge, in order. Items and cells last from edge to edge, and temps are 0 as an edge begins.
#[derive(Debug, Drop)]
pub struct StepProgram {
    pub items: Vec<Item>,
    pub arrays: Vec<ArrayItem>,
    pub pins: Vec<Item>,
    /// The items' first values.
    pub first: Vec<u64>,
    /// The temps' widths.
    pub temps: Vec<u32>,
    pub steps: Vec<Step>,
}
