// Modules with the places of their ranges and expressions.
use crate::expressions::PlacedExpr;
use lisa_engine::{ArrayItem, Item};
use lisa_words::{Name, Word};

/// An action of an `always` block.
#[derive(Debug, Drop)]
pub enum PlacedAction {
    /// `name <= value;`, or `name[index] <= value;` for a cell of an array.
    Set(Name, Option<PlacedExpr>, PlacedExpr),
    /// The actions where the test isn't 0, and those where it is.
    If(PlacedExpr, Vec<PlacedAction>, Vec<PlacedAction>),
}

/// A member of a module. A declaration begins with the byte of its range's `[`, or with 0 where it has no range.
#[derive(Debug, Drop)]
pub enum PlacedMember {
    /// A `reg` of one word.
    Reg(u32, Item),
    /// A `reg` with cells.
    Array(u32, ArrayItem),
    /// A wire and the expression that it has.
    Wire(u32, Item, PlacedExpr),
    /// First values.
    Initial(Vec<(Name, Word)>),
    /// The name behind `posedge`, and what is done at the edge.
    Always(Name, Vec<PlacedAction>),
}

/// An input.
#[derive(Debug, Drop)]
pub struct PlacedInput {
    /// The byte of its range's `[`, or 0 where it has no range.
    pub range: u32,
    pub item: Item,
}

/// A module.
#[derive(Debug, Drop)]
pub struct PlacedModule {
    pub name: Name,
    /// The first input.
    pub clock: Name,
    /// The inputs after the clock.
    pub inputs: Vec<PlacedInput>,
    pub members: Vec<PlacedMember>,
}
