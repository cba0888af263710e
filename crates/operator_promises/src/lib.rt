//! What both languages promise of operators of two operands: one definition of levels groups them. Each law is the contract of a function
//! that does nothing.
#![tactic(auto)]

mod laws;

pub use laws::{expressions_are_grouped, verilog_expressions_are_grouped};
