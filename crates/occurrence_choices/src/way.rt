//! How occurrences are activated.

/// How an occurrence is activated, as it matters to forms.
#[derive(Clone, Copy, Debug, PartialEq, Eq)]
pub(crate) enum Way {
    /// It isn't past the root.
    Outside,
    /// By the root's group, so it is a whole form's operation.
    Top,
    /// By a child of its activator's coding, the one at this place.
    Child(usize),
    /// By a name that is no child of its activator's coding.
    Apart,
}
