//! The tokens of a module's text, from its bytes.
#![tactic(auto)]

mod brackets;
mod items;
mod numbers;
mod reading;
mod signs;
mod words;

pub use brackets::too_deep;
pub use reading::tokens;
