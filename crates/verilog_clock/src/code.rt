// Compiled modules: names have become places, and each operator has its length.
use crate::lengths::Length;
use lisa_words::Operator;

/// A compiled expression.
#[derive(Drop)]
pub enum Code {
    Number(u64),
    /// The value at a place.
    Value(usize),
    /// The cell of an array at an index.
    Cell(usize, Box<Code>),
    Complement(Length, Box<Code>),
    Negate(Box<Code>),
    Two(Operator, Length, Box<Code>, Box<Code>),
    Choose(Box<Code>, Box<Code>, Box<Code>),
}

/// A wire: its length, and what it is cut from.
#[derive(Drop)]
pub struct Net {
    pub length: Length,
    pub value: Code,
}

/// A compiled action.
#[derive(Drop)]
pub enum Act {
    /// The value at a place is to be set, cut to a length.
    Set(usize, Length, Code),
    /// The cell of an array at an index is to be set, cut to a length.
    Put(usize, Code, Length, Code),
    /// The actions where the test isn't 0, and those where it is.
    If(Code, Vec<Act>, Vec<Act>),
}

/// What is to be written when all actions are done.
#[derive(Clone, Copy)]
pub enum Update {
    Item(usize, u64),
    Cell(usize, u64, u64),
}
