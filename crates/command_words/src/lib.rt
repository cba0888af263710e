//! What the words of a command line ask for.
#![tactic(auto)]

mod commands;
mod descriptions;
mod laws;
mod other_tools;
mod programs;
mod requests;
mod runs;
mod tasks;
mod words;

pub use commands::Command;
pub use laws::words_ask_for_one;
pub use requests::request;
