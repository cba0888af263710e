//! The tree of activations in memory.

/// The items under an activator.
#[derive(Drop)]
pub enum Tree {
    Nothing,
    /// An occurrence: its number, the level in which it runs, whether it is past the root, its own items, and the items that follow.
    Item(u32, u8, bool, Box<Tree>, Box<Tree>),
    /// An `if`: whose it is, its place among that one's, its two branches, and the items that follow.
    If(u32, u32, Box<Tree>, Box<Tree>, Box<Tree>),
}

/// An occurrence with all that it leads to.
#[derive(Drop)]
pub struct Occurrence {
    pub number: u32,
    /// The level of its activator, and its own.
    pub above: u8,
    pub level: u8,
    pub past: bool,
    pub own: Tree,
}
