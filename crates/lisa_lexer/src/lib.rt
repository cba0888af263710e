//! The tokens of a description, from its bytes.
#![tactic(auto)]

mod brackets;
mod items;
mod reading;
mod signs;
mod words;

pub use brackets::too_deep;
pub use reading::{tokens, tokens_are_unique, written_tokens_are_read};
