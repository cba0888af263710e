//! The parts of a description from tokens: resources, declarations, codings and syntaxes.
#![tactic(auto)]

mod codings;
mod declares;
mod laws;
mod lists;
mod resources;
mod syntaxes;

pub use codings::coding;
pub use declares::all_declares;
pub use laws::{codings_are_read, declares_are_read, resources_are_read, syntaxes_are_read};
pub use lists::{fields, names, typed, without};
pub use resources::{all_resources, ends};
pub use syntaxes::syntax;
