//! Forms that a line isn't of.

/// A form that a line isn't of, and how many pieces at its front tell so.
#[derive(Clone, Copy)]
pub(crate) struct Misfit {
    pub form: usize,
    pub pieces: usize,
}
