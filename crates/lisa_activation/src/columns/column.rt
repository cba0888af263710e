//! What is kept of sixty-four occurrences.

/// A word for each stage, and a bit for each occurrence.
#[derive(Clone, Copy)]
pub struct Column {
    /// The stages in which an activation of it stands.
    pub(crate) standing: [u64; 8],
    /// The stage of its activator, where it was recorded in this edge.
    pub(crate) entered: [u64; 8],
    /// The stage in which it runs.
    pub(crate) own: [u64; 8],
    /// Whether it was recorded in this edge under an activator in no stage.
    pub(crate) first: u64,
}
