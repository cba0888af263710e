// What a program's items, temps and cells are as its steps are taken.
use netlist_wires::keys::{Flat, Write};

/// What the items and temps are now, and the writes of cells so far, the oldest first.
#[derive(Debug, Drop)]
pub struct Symbols {
    pub items: Vec<Flat>,
    pub temps: Vec<Flat>,
    pub writes: Vec<Write>,
}

/// An operand and its width.
#[derive(Clone, Copy, Debug)]
pub struct Operand {
    pub flat: Flat,
    pub width: u32,
}
