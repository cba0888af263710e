//! Plain forms with their masks and patterns.

/// A form by its number, with its mask and pattern.
#[derive(Clone, Copy, Debug, PartialEq, Eq)]
pub struct Entry {
    pub mask: u64,
    pub pattern: u64,
    pub form: u32,
}
