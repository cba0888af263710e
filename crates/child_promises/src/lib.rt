//! What occurrences are in the scenes of what activates them. Each law is the contract of a function that does nothing.
#![tactic(auto)]

mod activating;

pub use activating::scenes_are_children;
