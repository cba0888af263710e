//! What a source says once it is assembled: its entries, its object, and its first fault.
#![tactic(auto)]

mod assembling;
mod cells;
mod coded;
mod fields;
mod fixes;
mod line;
mod memories;
mod names;
mod reading;
mod tools;

pub use assembling::assemble;
pub use reading::assemble_bytes;
pub use tools::Tools;
