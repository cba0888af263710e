//! Behaviours from tokens: expressions and statements.
//!
//! Reading goes as deep as the expression or statement, at most 128, and as its brackets. A description has at most 64 open
//! brackets; its reader tests that first.
#![tactic(auto)]

mod depths;
mod expressions;
mod laws;
mod misses;
mod reading;
mod signs;
mod stmts;

pub use depths::Measured;
pub use expressions::expression;
pub use laws::{one_behavior, one_expression};
pub use misses::Missed;
pub use reading::{fault, read_expression, read_statements};
pub use signs::{name, number, past};
pub use stmts::statements;
