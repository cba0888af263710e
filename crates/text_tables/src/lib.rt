//! Texts of many forms: which two share one, and which form a line is of.
//!
//! A form is known here by the pieces of its text alone, and by its number. Pieces may be kept once for many texts.
#![tactic(auto)]

mod alike;
mod beginnings;
mod joining;
mod misfits;
mod openings;
mod relations;
mod shared;
mod table;
mod texts;

pub use shared::{Shared, first_shared};
pub use table::{Found, TextTable};
pub use texts::{Part, Texts, add_pieces, pieces};
