// Ways by their places.

/// A way to a part of instructions, by its place among those of plain forms. By a way without a place no plain form has a part.
#[derive(Clone, Copy, Debug, PartialEq, Eq)]
pub struct WayAt {
    pub(crate) place: Option<usize>,
}

/// By what an occurrence past the root is chosen: a part by this way. It stands at that part, or beside it.
#[derive(Clone, Copy, Debug, PartialEq, Eq)]
pub(crate) struct Chosen {
    pub(crate) at: WayAt,
    pub(crate) inside: bool,
}
