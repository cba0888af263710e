//! What the wires of a step program's module are: one operator each, over flat operands. The module that a program becomes is defined
//! in this crate's `specs/`, and its laws say that the module is the program.
#![tactic(auto)]

pub mod keys;
pub mod laws;
