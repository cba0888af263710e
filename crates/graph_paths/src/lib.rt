//! What reaches what in a finite graph, whose nodes are numbers and whose edges are a list of nodes for each node.
#![tactic(auto)]

mod circles;
mod components;
mod laws;
mod ordering;
mod peeling;
mod ranking;
mod reaching;
mod reversing;

pub use circles::first_circular;
pub use laws::paths_are_short;
pub use ordering::visiting_order;
pub use reaching::{reached_from, row};
pub use reversing::{add_edge, no_edges, reversed};
