//! The step program of a description: its parts as those that time asks for.
#![tactic(auto)]

mod edge_parts;
pub mod laws;
mod lines;
mod parts;
mod programs;
mod roots;

pub use edge_parts::EdgeParts;
pub use laws::{programs_are_formed, programs_make_edges, programs_show_states};
pub use lowered_layouts::time_is_laid_out;
pub use program_declarations::shown_is_declared;
pub use programs::lower_edges;
