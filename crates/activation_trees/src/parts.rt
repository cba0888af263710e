//! The nodes of the tree of activations.

/// An operation where it is activated. It is known by its number among all occurrences.
#[derive(Clone, Copy, Debug, PartialEq, Eq)]
pub struct Occurrence {
    pub operation: u32,
    /// The occurrence that activates it; `main` has none.
    pub parent: Option<u32>,
    /// The stage in which that one runs, if it runs in a stage.
    pub from: Option<u32>,
    /// The stage in which it runs itself, if it runs in a stage.
    pub stage: Option<u32>,
    /// Whether it is activated by the name of the root's group, or stands below one that is.
    pub past_root: bool,
}

/// An item of an activation that names a group or an instance.
#[derive(Clone, Copy, Debug, PartialEq, Eq)]
pub(crate) struct Start {
    /// What is chosen among.
    pub choice: usize,
    /// Whether it names the root's group.
    pub by_root: bool,
}
