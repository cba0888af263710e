// Expressions with their places.
ghost use Rattle.std.specs.Prelude.{◌≡◌};
ghost use Rattle.verilog_places.specs.Trees.{placed_tree, moved, place};

use lisa_words::{Name, Operator, Word};
use verilog_text::VOne;

/// An expression of a module. Each variant begins with the byte at which the expression begins: that of the outermost parenthesis
/// round it, where it has any.
#[derive(Debug, Drop)]
pub enum PlacedExpr {
    /// A number with its size, as `8'd200`.
    Number(u32, Word),
    /// A `reg`, wire or input.
    Named(u32, Name),
    /// The bits of a `reg`, wire or input from a high one down to a low one.
    Bits(u32, Name, u32, u32),
    /// `name[index]`, a cell of an array.
    Cell(u32, Name, Box<PlacedExpr>),
    One(u32, VOne, Box<PlacedExpr>),
    Two(u32, Operator, Box<PlacedExpr>, Box<PlacedExpr>),
    /// `c ? a : b`
    Choose(u32, Box<PlacedExpr>, Box<PlacedExpr>, Box<PlacedExpr>),
    /// `{a, b}`, a concatenation.
    Join(u32, Vec<PlacedExpr>),
    /// `{3{a}}`, a replication.
    Repeat(u32, u32, Box<PlacedExpr>),
}

impl PlacedExpr {
    /// Where the expression begins.
    pub fn place(&self) -> u32
        ensures { result ≡ place (placed_tree self.now) }
    {
        match self {
            PlacedExpr::Number(at, _) => *at,
            PlacedExpr::Named(at, _) => *at,
            PlacedExpr::Bits(at, _, _, _) => *at,
            PlacedExpr::Cell(at, _, _) => *at,
            PlacedExpr::One(at, _, _) => *at,
            PlacedExpr::Two(at, _, _, _) => *at,
            PlacedExpr::Choose(at, _, _, _) => *at,
            PlacedExpr::Join(at, _) => *at,
            PlacedExpr::Repeat(at, _, _) => *at,
        }
    }

    /// The same expression, which begins here: at a parenthesis in front of it.
    pub fn moved(self, at: u32) -> PlacedExpr
        ensures { placed_tree result ≡ moved at (placed_tree self) }
    {
        match self {
            PlacedExpr::Number(_, word) => PlacedExpr::Number(at, word),
            PlacedExpr::Named(_, name) => PlacedExpr::Named(at, name),
            PlacedExpr::Bits(_, name, high, low) => PlacedExpr::Bits(at, name, high, low),
            PlacedExpr::Cell(_, name, index) => PlacedExpr::Cell(at, name, index),
            PlacedExpr::One(_, one, a) => PlacedExpr::One(at, one, a),
            PlacedExpr::Two(_, operator, a, b) => PlacedExpr::Two(at, operator, a, b),
            PlacedExpr::Choose(_, test, this, other) => PlacedExpr::Choose(at, test, this, other),
            PlacedExpr::Join(_, parts) => PlacedExpr::Join(at, parts),
            PlacedExpr::Repeat(_, times, a) => PlacedExpr::Repeat(at, times, a),
        }
    }
}
