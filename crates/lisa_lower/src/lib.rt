//! Accepted descriptions as step programs.
#![tactic(auto)]

mod lowering;

pub use lowering::lower;
pub use step_program::LowerFault;
