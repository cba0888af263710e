//! Pieces of a step program: steps with the temps that they take for themselves, a draft to which they are put, and laws on what they do
//! and leave as it was.
#![tactic(auto)]

mod drafts;
pub mod laws;
mod leaves;

pub use drafts::Draft;
pub use leaves::Leaf;
