//! Runs the items of a pipeline's activations, over whatever operations do.
#![tactic(auto)]

mod behaves;
mod edges;
mod ends;
mod makes;
mod pipeline;
mod plan;
mod restores;
mod runs;
mod seeing;
mod seen;
mod tree;
mod turns;

pub use behaves::{Behaves, Edge};
pub use pipeline::Pipeline;
pub use plan::Plan;
pub use runs::{run, run_occurrence};
pub use seeing::{what_is_due_runs, with_stage};
pub use seen::Seen;
pub use tree::{Occurrence, Tree};
pub use turns::{turn, turn_from};
