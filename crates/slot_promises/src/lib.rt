//! A law of time above its others: the slot of what stands past the root. It is the contract of a function that does nothing.
#![tactic(auto)]

mod laws;

pub use laws::past_stands_with_a_slot;
