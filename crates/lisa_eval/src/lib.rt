//! Behaviours of descriptions with their names resolved to places, and that they mean what the description says.
#![tactic(auto)]

mod laws;

pub use laws::{controls_are_held, names_are_assigned, terms_are_meant};
