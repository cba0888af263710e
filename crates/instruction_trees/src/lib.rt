//! The trees of instructions: their forms, their words, and their values.
//!
//! A table gives each operation, by its number, the items of its coding. A tree is an operation with a part for each item;
//! its form is the tree without values. The definitions are in `specs`, and the laws on them are the contracts of the functions here.
#![tactic(auto)]

pub mod laws;
