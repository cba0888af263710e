//! Sets of small numbers as the bits of words of 64.
#![tactic(auto)]

mod rows;
mod words;

pub use rows::{contains, insert};
pub use words::{has_bit, least_from, with_bit};
