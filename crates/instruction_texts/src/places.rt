// Places in the texts of a form, and what is said from one place to another.
use crate::shapes::{Ending, Token};

/// What of a negative number is still to come: nothing, `-` and its digits, or the digits alone. Its size is at most the one that is given.
#[derive(Clone, Copy, Debug, PartialEq, Eq, Hash)]
pub enum Pending {
    Nothing,
    Minus(u64),
    Digits(u64),
}

/// A place in the texts of a form: what is still to come of the number before the piece `shape`, and then that piece.
#[derive(Clone, Copy, Debug, PartialEq, Eq, Hash)]
pub struct Place {
    pub shape: usize,
    pub pending: Pending,
}

/// A run of word characters: a prefix and what stands behind it.
#[derive(Clone, Copy, Debug)]
pub struct Run<'a> {
    pub prefix: &'a [u8],
    pub ending: Ending,
}

/// What may be said next: a character or a run.
#[derive(Clone, Copy, Debug)]
pub enum Said<'a> {
    Mark(u8),
    Run(Run<'a>),
}

/// What may be said at a place, and the place behind it.
#[derive(Clone, Copy, Debug)]
pub struct Move<'a> {
    pub said: Said<'a>,
    pub next: Place,
}

/// A place of each of two forms to which one text leads, and how it was reached.
#[derive(Debug, Drop)]
pub struct Meeting {
    pub first: Place,
    pub second: Place,
    pub reached: Option<Reached>,
}

/// The number of the meeting before, and what is said behind it.
#[derive(Debug, Drop)]
pub struct Reached {
    pub before: usize,
    pub token: Token,
}
