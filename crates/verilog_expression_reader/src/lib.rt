//! Expressions of the Verilog subset from tokens, each with the places where its parts begin.
//!
//! Reading goes as deep as the expression, at most 128, and as its brackets. A module's text has at most 64 open brackets; its reader
//! tests that first.
#![tactic(auto)]

mod depths;
mod expressions;
mod laws;
mod misses;
mod signs;

pub use depths::Measured;
pub use expressions::expression;
pub use laws::one_expression;
pub use misses::Missed;
pub use signs::{number, past};
