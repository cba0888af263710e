//! The texts of a description's forms: the pieces of each, and the order in which it writes its fields.
#![tactic(auto)]

mod assembling;
mod conditions;
mod form_symbols;
mod gathering;
mod places;
mod segments;
mod strings;
mod symbols;
mod writing;

pub use writing::{FormTexts, first_bad_text, texts};
