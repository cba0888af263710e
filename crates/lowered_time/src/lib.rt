//! The steps of an edge from what the parts of a description become: which run under which guard, in which order, and how bits and words move on.

#![tactic(auto)]

mod edge_steps;
mod end_steps;
mod expressions;
pub mod laws;
mod occurrences;
mod parts;
mod temps;
mod turn_steps;

pub use edge_steps::lower_edge;
pub use parts::Parts;
pub use temps::{held_at, open_at, recorded_at, slot_at, taken_at};
