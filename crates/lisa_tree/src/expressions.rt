//! Expressions of a behaviour.

use crate::tokens::{Base, Shape};
use lisa_words::{Name, Operator};

/// A field of the boundary between two stages: `PIPELINE_REGISTER(pipe, before/after).field`.
#[derive(Debug, Drop)]
pub struct BoundaryField {
    pub pipe: Name,
    pub before: Name,
    pub after: Name,
    pub field: Name,
}

/// An expression, or a place that is assigned. `Output` is a place alone.
#[derive(Debug, Drop)]
pub enum Expr {
    /// A number and the base in which it was written.
    Number(u64, Base),
    /// A register, pin, local, label or child.
    Named(Name),
    /// `name[index]`, an element of a register array or memory.
    Element(Name, Box<Expr>),
    /// `IN.field`
    Input(Name),
    /// `OUT.field`
    Output(Name),
    Boundary(Box<BoundaryField>),
    /// `decoded`
    Decoded,
    /// `(type) e`
    Cast(Shape, Box<Expr>),
    /// `~e`
    Complement(Box<Expr>),
    /// `!e`
    Negate(Box<Expr>),
    Two(Operator, Box<Expr>, Box<Expr>),
    /// `c ? a : b`
    Choose(Box<Expr>, Box<Expr>, Box<Expr>),
}
