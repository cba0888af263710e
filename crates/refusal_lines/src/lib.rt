//! The line that a status has on the second stream: that of a refusal, with what is at fault.
#![tactic(auto)]

mod fault_lines;
mod lines;
mod module_lines;
mod source_lines;
mod telling;
mod tool_lines;

pub use telling::{tell, tell_no_memory};
