//! Register arrays and memories.

ghost use Rattle.std.specs.Prelude.{◌≡◌, ◌≤◌, ◌%◌};

use lisa_tree::Shape;

/// The type of an array's elements, and how many it has.
#[derive(Clone, Copy)]
pub(crate) struct ArrayType {
    pub(crate) shape: Shape,
    pub(crate) depth: u64,
}

/// An array: its place among the arrays, the type of its elements, and how many it has.
#[derive(Clone, Copy)]
pub struct Array {
    pub place: usize,
    pub shape: Shape,
    pub depth: u64,
    pub ghost least: { 1 ≤ shape.width },
    pub ghost most: { shape.width ≤ 64 },
    pub ghost deep: { 1 ≤ depth },
}

impl Array {
    /// The place of an element; the index counts modulo the depth.
    pub fn index(&self, index: u64) -> usize
        ensures { result ≡ index % self.now.depth }
    {
        (index % self.depth) as usize
    }
}
