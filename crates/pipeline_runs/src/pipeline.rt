//! A pipeline between edges.

use crate::behaves::Edge;

/// A pipeline: its memory, what stands in its stages, and the words of these.
#[derive(Drop)]
pub struct Pipeline<B> {
    pub edge: Edge<B>,
    /// The word of each stage, the first one's first.
    pub words: [u64; 8],
}
