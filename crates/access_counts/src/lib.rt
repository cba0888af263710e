//! How often the unfolded texts of a description read and write elements of each array.
#![tactic(auto)]

mod activations;
mod behaviors;
mod due;
mod expressions;
mod ledger;
mod rounds;
mod unfolding;

pub use due::Choices;
pub use ledger::{Ledger, zeros};
pub use unfolding::count_accesses;
