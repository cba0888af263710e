//! The names of a description in tables, so that each is looked up at once.
#![tactic(auto)]

mod choices;
mod finding;
mod globals;
mod listing;
mod listings;
mod places;
mod tables;

pub use tables::Tables;
