//! Which declarations a declared name may mean: a reference means what the operations above its own declare by its name, and where that is
//! a reference too, what it means.
#![tactic(auto)]

mod declaring;
mod differing;
mod directly;
mod lacking;
mod meanings;
mod sources;
mod walking;

pub use lacking::lacking_references;
pub use meanings::Meanings;
pub use sources::reference_sources;
