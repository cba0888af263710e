//! How a command of the program ends, by what it gives of the files and the input that are told.
//!
//! `specs/Outcomes.antt` says what a command may give, `specs/Ends.antt` what an end tells of it, and `specs/NamedFiles.antt` how the
//! files that a command names are read.
#![tactic(auto)]

mod loading;
mod run_files;
mod status;

pub use loading::{NamedFile, load_files};
pub use run_files::{RunBytes, RunNames, file_at, run_bytes};
pub use status::{End, FileFault, InputFault, Refusal, Status};
