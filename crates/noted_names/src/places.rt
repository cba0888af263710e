//! Two places.

/// Where a name stands in two lists, in each if it stands there.
#[derive(Clone, Copy)]
pub struct Places {
    pub first: Option<usize>,
    pub second: Option<usize>,
}
