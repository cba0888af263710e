//! Texts that are cut at a byte, and their lines.
#![tactic(auto)]

mod cuts;

pub use cuts::{cut, next_line};
