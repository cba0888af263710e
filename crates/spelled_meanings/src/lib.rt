//! What the laws of a description's meaning and of its lowering ask of its text holds of each that is spelled: its numbers are below 2 ^ 64, and
//! the grammar gives the root's word a place. Each law is the contract of a function that does nothing.
#![tactic(auto)]

pub mod laws;
