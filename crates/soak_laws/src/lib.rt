//! What a soak tells of a description and of the module that `verilog` wrote of it.
#![tactic(auto)]

mod laws;

pub use laws::soaks_of_written_modules_agree;
