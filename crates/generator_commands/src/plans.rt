//! What a soak is to do.

/// The number that a program is drawn from, how many instructions it has, and how many edges are made with it.
#[derive(Clone, Copy, Debug)]
pub struct Plan {
    pub number: u64,
    pub count: u32,
    pub edges: u32,
}
