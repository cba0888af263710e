//! Places that are assigned to.

use crate::terms::Term;
use lisa_tree::Shape;

/// A place that is assigned to.
#[derive(Drop)]
pub enum Spot {
    Register(u32),
    /// A local by its slot.
    Local(u32),
    /// The type of the elements, the array, its last index, which is one less than a power of two, and the index.
    Element(Shape, u32, u32, Term),
    /// The type of a boundary's field, and its place among those of all boundaries.
    Output(Shape, u32),
}
