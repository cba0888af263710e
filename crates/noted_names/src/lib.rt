//! The names of a description in tables, with a short memory before them: for each operation the
//! names that stand in it, beside what they are there.
#![tactic(auto)]

mod entry;
mod meeting;
mod memo;
mod memos;
mod naming;
mod noted;
mod places;
mod table;

pub use memo::Memo;
pub use noted::Noted;
pub use places::Places;
pub use table::PlaceTable;
