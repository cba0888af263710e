//! What a description promises because some bytes spell it, as facts over its plain tree: how its names, numbers, patterns and strings are
//! formed, and which expressions stand where. Each is the contract of a function that does nothing.
#![tactic(auto)]

mod places;
mod trees;

pub use places::spelled_places_are_well_formed;
pub use trees::{
    spelled_is_well_formed, spelled_operations_are_well_formed, spelled_resources_are_well_formed,
    spelled_sections_are_well_formed,
};
