//! Linking: the image of objects, or the first of their faults.
#![tactic(auto)]

mod cells;
mod counts;
mod filling;
mod fixes;
mod linking;
mod ranges;
mod sums;
mod values;

pub use linking::link;
