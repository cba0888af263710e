//! Descriptions from bytes.
//!
//! `read_description` goes as deep as the brackets, at most 64, and the depth of the description, at most 128, together.
#![tactic(auto)]

mod laws;
mod operations;
mod reading;
mod sections;
mod skipping;

pub use laws::descriptions_are_unique;
pub use reading::read_description;
