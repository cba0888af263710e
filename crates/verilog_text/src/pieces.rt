// Tokens that are to be written.
use crate::tokens::{VKeyword, VSign};
use lisa_words::{Name, Word};

/// A token that borrows from the module.
#[derive(Clone, Copy, Debug)]
pub enum Piece<'a> {
    Named(&'a Name),
    Reserved(VKeyword),
    Sized(&'a Word),
    /// The number in decimal.
    Plain(u32),
    Sign(VSign),
}
