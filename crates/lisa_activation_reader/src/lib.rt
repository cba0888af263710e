//! Activations from tokens.
//!
//! Reading goes as deep as the items, at most as deep as is asked, and as the brackets of their tests.
#![tactic(auto)]

mod items;
mod laws;

pub use items::activation;
pub use laws::activations_are_read;
