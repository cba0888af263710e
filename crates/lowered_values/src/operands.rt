//! Operands and what is made of them.
ghost use Rattle.std.specs.Prelude.{◌≤◌};

use lisa_words::Kind;
use step_pieces::Leaf;
use step_program::StepExpr;

/// An operand: a leaf with the type of its value.
#[derive(Clone, Copy, Debug, PartialEq, Eq)]
pub struct Source {
    pub at: Leaf,
    pub kind: Kind,
    pub width: u32,
    pub ghost at_least_one: { 1 ≤ width },
    pub ghost at_most_64: { width ≤ 64 },
}

/// An array: the type of its cells, and how wide its index is.
#[derive(Clone, Copy, Debug, PartialEq, Eq)]
pub struct ArraySource {
    pub array: u32,
    pub kind: Kind,
    pub width: u32,
    pub places: u32,
    pub ghost at_least_one: { 1 ≤ width },
    pub ghost at_most_64: { width ≤ 64 },
    pub ghost some_places: { 1 ≤ places },
    pub ghost few_places: { places ≤ 64 },
}

/// An expression with the type of its value.
#[derive(Debug, Drop)]
pub struct Formula {
    pub at: StepExpr,
    pub kind: Kind,
    pub width: u32,
    pub ghost at_least_one: { 1 ≤ width },
    pub ghost at_most_64: { width ≤ 64 },
}
