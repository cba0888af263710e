// Ways by their last steps.

/// A way by its last step.
#[derive(Clone, Copy, Debug, PartialEq, Eq, Hash)]
pub(crate) enum Link {
    /// To a whole form of this operation.
    Whole(usize),
    /// From the part by the way of the first number to the child at a place there, of an operation.
    Child(usize, usize, usize),
}
