//! Expressions and statements read by themselves from tokens that open few brackets at a time, and the laws of what is read.
//!
//! Reading goes as deep as the expression or statement, at most 128, and as its brackets, at most 64.
#![tactic(auto)]

mod laws;
mod reading;

pub use laws::{expressions_are_read, statements_are_read};
pub use reading::{read_expression, read_statements};
