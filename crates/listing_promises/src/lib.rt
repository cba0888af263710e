//! What is promised of listings. Each law is the contract of a function that does nothing.
#![tactic(auto)]

mod laws;
mod lines;

pub use laws::{listings_are_sources, listings_reassemble};
pub use lines::listing_lines_are_read;
