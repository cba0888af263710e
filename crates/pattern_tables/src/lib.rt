//! Words of instructions by masks and patterns: which forms overlap, and which form a word has.
//!
//! A form is known here by its frame alone: its literal bits, and which bits are free. A mask has ones at the literal bits, and a
//! pattern has the literal bits themselves. Each contract speaks of all frames for which the masks and patterns stand.
#![tactic(auto)]

mod bit_pattern;
mod covering;
mod decoder;
mod entry;
mod fields;
pub mod laws;
mod making;
mod overlaps;
mod search;
mod steps;
mod table;

pub use bit_pattern::{BitPattern, common_word, covers};
pub use covering::first_uncovered;
pub use decoder::Decoder;
pub use entry::Entry;
pub use fields::{Place, field};
pub use overlaps::{Overlap, first_overlap};
pub use search::form_in;
pub use steps::Steps;
pub use table::PatternTable;
