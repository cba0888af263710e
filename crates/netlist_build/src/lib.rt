//! The Verilog module of a step program: wires of one operator each, of which equal ones are one, and what each item and cell takes.
#![tactic(auto)]

mod assembling;
mod building;
mod lowering;
mod symbols;
mod widths;

pub use building::{build, program_text};
