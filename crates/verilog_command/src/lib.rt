//! The command that writes the module of a description.
#![tactic(auto)]

mod writing;

pub use checked_descriptions::checks_are_unique;
pub use writing::write_verilog;
