//! Programs that are placed one behind the other in each memory: addresses, symbols, and what each cell holds at last.
#![tactic(auto)]

mod laws;

pub use laws::{entries_are_read_back, lines_are_entries};
