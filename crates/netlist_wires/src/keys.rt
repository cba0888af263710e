//! Flat operands, and what one wire carries.
use step_program::TwoOp;

/// An operand: a number with its width, or the place of an item, pin or wire. An item and a pin have their values as the edge began.
#[derive(Clone, Copy, Debug, PartialEq, Eq, Hash)]
pub enum Flat {
    Fixed(u32, u64),
    OfItem(u32),
    OfPin(u32),
    OfWire(usize),
}

/// One operator with its operands.
#[derive(Clone, Copy, Debug, PartialEq, Eq, Hash)]
pub enum Body {
    /// The operand as it is.
    Copied(Flat),
    /// The bits of the operand from this one down.
    Lowest(u32, Flat),
    /// So many zeros, and behind them the operand.
    Padded(u32, Flat),
    Inverse(Flat),
    /// The cell of an array as the edge began.
    Load(u32, Flat),
    Operate(TwoOp, Flat, Flat),
    /// The first branch where the test isn't 0.
    Select(Flat, Flat, Flat),
}

/// What a wire carries, and its width.
#[derive(Clone, Copy, Debug, PartialEq, Eq, Hash)]
pub struct Key {
    pub width: u32,
    pub body: Body,
}

/// A write of a cell, where the guard isn't 0.
#[derive(Clone, Copy, Debug)]
pub struct Write {
    pub array: u32,
    pub guard: Flat,
    pub index: Flat,
    pub value: Flat,
}
