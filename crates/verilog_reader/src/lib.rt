//! Verilog modules from bytes.
//!
//! `read_module` goes as deep as the brackets, at most 64, and the depth of the module, at most 128, together.
#![tactic(auto)]

mod laws;
mod reading;

pub use laws::modules_are_unique;
pub use reading::read_module;
