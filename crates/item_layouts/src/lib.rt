//! What stands where among the items of a machine: first its registers, then the fields of the boundaries between stages, the words of stages,
//! and a bit for each activation that may stand in a stage. `item_places` lists the places; the laws tell which there are, and that each has
//! one number.
#![tactic(auto)]

mod arrangement;
pub mod laws;
mod place;
mod places;

pub use arrangement::Arrangement;
pub use place::ItemPlace;
pub use places::item_places;
