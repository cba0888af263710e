//! What the resources of a description, the fields of boundaries, stalls and flushes become in a step program: what is read, and what
//! assignments do.
#![tactic(auto)]

mod accesses;
mod controls;
mod indexes;
pub mod laws;
mod resources;
mod sites;
mod targets;
mod told;

pub use accesses::Accesses;
pub use controls::{flush, stall};
pub use resources::{Declared, Resources};
pub use sites::Placing;
pub use targets::Targets;
pub use told::Told;
