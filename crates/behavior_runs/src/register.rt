// A register.
ghost use Rattle.std.specs.Prelude.{◌≤◌};

use lisa_tree::Shape;

/// A register that is no array: its place among these, and its type.
#[derive(Clone, Copy)]
pub(crate) struct Register {
    pub(crate) place: usize,
    pub(crate) shape: Shape,
    pub(crate) ghost least: { 1 ≤ shape.width },
    pub(crate) ghost most: { shape.width ≤ 64 },
}
