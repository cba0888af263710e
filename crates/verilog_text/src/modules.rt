// Modules and their members.
use crate::expressions::VExpr;
use lisa_engine::{ArrayItem, Item};
use lisa_words::{Name, Word};

/// An action of an `always` block. `begin` and `end` only group: what stands between them is a list of actions.
#[derive(Debug, Drop)]
pub enum Action {
    /// `name <= value;`, or `name[index] <= value;` for a cell of an array.
    Set(Name, Option<VExpr>, VExpr),
    /// The actions where the test isn't 0, and those where it is.
    If(VExpr, Vec<Action>, Vec<Action>),
}

/// A member of a module.
#[derive(Debug, Drop)]
pub enum Member {
    /// A `reg` of one word.
    Reg(Item),
    /// A `reg` with cells.
    Array(ArrayItem),
    /// A wire and the expression that it has.
    Wire(Item, VExpr),
    /// First values.
    Initial(Vec<(Name, Word)>),
    /// What is done at each rising edge of the clock.
    Always(Vec<Action>),
}

/// A module of one clock.
#[derive(Debug, Drop)]
pub struct Module {
    pub name: Name,
    /// The first input.
    pub clock: Name,
    /// The inputs after the clock.
    pub inputs: Vec<Item>,
    pub members: Vec<Member>,
}
