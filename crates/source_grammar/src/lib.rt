//! The laws of sources and their lines: what a line says is what it spells. Each is the contract of a function that does nothing.
#![tactic(auto)]

mod laws;

pub use laws::{lines_are_refused, lines_are_spelled, sources_are_spelled};
