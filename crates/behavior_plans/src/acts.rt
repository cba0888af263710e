//! Statements whose names are resolved to places.

ghost use Rattle.std.specs.Prelude.{◌≤◌};

use crate::spots::Spot;
use crate::terms::Term;
use lisa_tree::Shape;
use shape_checks::Bounds;

/// A loop's variable: its slot, its type, and its values.
#[derive(Clone, Copy)]
pub struct Loop {
    pub slot: u32,
    pub shape: Option<Shape>,
    pub bounds: Bounds,
    pub ghost moves: { 1 ≤ bounds.step },
}

/// A statement.
#[derive(Drop)]
pub enum Act {
    Empty,
    Block(Vec<Act>),
    /// The slot, the type, and what the local holds first. It is written each time that its declaration is come to.
    Local(u32, Shape, Option<Term>),
    Assign(Spot, Term),
    If(Term, Box<Act>),
    IfElse(Term, Box<Act>, Box<Act>),
    For(Loop, Box<Act>),
    /// Holds a stage, by its level, which is one more than its place.
    Stall(u32),
    /// Drops what stands in a stage, by its level.
    Flush(u32),
}
