//! Values of nodes that rest on each other: what follows from the rules, and nothing else.
#![tactic(auto)]

mod rounds;

pub use rounds::{Rule, settle, settle_along};
