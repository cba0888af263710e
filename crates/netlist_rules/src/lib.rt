//! The text of a step program's module spells it, and nothing is broken in it.
#![tactic(auto)]

pub mod laws;
