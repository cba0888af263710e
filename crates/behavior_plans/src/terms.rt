//! Expressions whose names are resolved to places.

use lisa_tree::{Operator, Shape};

/// An expression. It is at most as deep as the one that it was made of.
#[derive(Drop)]
pub enum Term {
    Number(u64),
    /// A register as it stands.
    Register(u32),
    /// A register as the edge began.
    Kept(u32),
    Pin(u32),
    /// Whether the instruction's word has a form.
    Decoded,
    /// A local by its slot.
    Local(u32),
    /// The type of the elements, the array, its last index, which is one less than a power of two, and the index.
    Element(Shape, u32, u32, Box<Term>),
    /// The type of a boundary's field, and its place among those of all boundaries. It is read as the edge began.
    Input(Shape, u32),
    Cast(Shape, Box<Term>),
    Complement(Box<Term>),
    Negate(Box<Term>),
    Two(Operator, Box<Term>, Box<Term>),
    Choose(Box<Term>, Box<Term>, Box<Term>),
}
