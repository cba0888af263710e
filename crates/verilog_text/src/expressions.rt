// Expressions of a module.
use lisa_words::{Name, Operator, Word};

/// An operator with one operand.
#[derive(Clone, Copy, Debug, PartialEq, Eq)]
pub enum VOne {
    /// `~`
    Complement,
    /// `!`
    Negate,
}

/// An expression, whose operands are all unsigned.
#[derive(Debug, Drop)]
pub enum VExpr {
    /// A number with its size, as `8'd200`.
    Number(Word),
    /// A `reg`, wire or input.
    Named(Name),
    /// The bits of a `reg`, wire or input from a high one down to a low one.
    Bits(Name, u32, u32),
    /// `name[index]`, a cell of an array.
    Cell(Name, Box<VExpr>),
    One(VOne, Box<VExpr>),
    Two(Operator, Box<VExpr>, Box<VExpr>),
    /// `c ? a : b`
    Choose(Box<VExpr>, Box<VExpr>, Box<VExpr>),
    /// `{a, b}`, a concatenation.
    Join(Vec<VExpr>),
    /// `{3{a}}`, a replication.
    Repeat(u32, Box<VExpr>),
}
