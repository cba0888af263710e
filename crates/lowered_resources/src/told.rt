//! What is told through an edge.

/// What is told by a temp that lasts through an edge.
#[derive(Clone, Copy, Debug, PartialEq, Eq)]
pub enum Told {
    /// Whether a field of the boundary behind a stage got bits: the boundary, and the field.
    Written(usize, usize),
    /// The bits that it got.
    Out(usize, usize),
    /// Whether a stall named a level.
    Stall(usize),
    /// Whether a flush did.
    Flush(usize),
}
