//! What leads where among the operations, choices and declared names of a description.
#![tactic(auto)]

mod circles;
mod graph;
mod laws;
mod meanings;
mod owners;
mod references;
mod rows;

pub use circles::{first_circular_among, first_circular_operation};
pub use graph::{edges, outline, plain_edges};
pub use laws::nodes_are_acyclic;
