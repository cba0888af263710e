//! The actions of an `always` block from the tokens of a module's text.
//!
//! Reading goes as deep as the actions and their expressions, at most 128, and as the brackets of an expression. `begin` and `end` only
//! group, so blocks inside blocks cost no depth, however many there are.
#![tactic(auto)]

mod actions;
mod laws;
mod names;

pub use actions::{action, plain};
pub use laws::actions_are_read;
pub use names::name;
