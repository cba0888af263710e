//! A debugger that steps a machine edge by edge, over any engine.
//!
//! `specs/Answers.antt` says what it answers to a line, from the machine's state after each number of edges.
#![tactic(auto)]

mod command;
mod ends;
mod input;
mod journal;
mod session;
mod tell;

pub use command::Go;
pub use ends::SessionEnd;
pub use input::answer_input;
pub use lisa_engine::TraceEnd;
pub use session::{Session, Standing};
