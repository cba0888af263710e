//! The listing of an image: its memories, and for each cell the text of the instruction that it holds, or its value.
#![tactic(auto)]

mod laws;
mod lines;
mod listing;

pub use laws::listings_are_one;
pub use listing::write_listing;
