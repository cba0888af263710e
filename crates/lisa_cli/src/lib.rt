//! The commands of the program, over any files and streams.
#![tactic(auto)]

mod commands;
mod files;
mod sending;
mod top;

pub use command_words::words_ask_for_one;
pub use lisa_outcomes::{End, FileFault, InputFault, Refusal, Status};
pub use refusal_lines::tell_no_memory;
pub use top::lisa;
