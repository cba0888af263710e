//! Operands with operators between them become one tree: each level of operators groups to the left, and tighter ones
//! hold on first. One stack serves all levels.
#![tactic(auto)]

mod laws;
mod operands;

pub use laws::grouped_by_levels;
pub use operands::{JoinFault, Joined, Operands};
