//! Laws below the meaning of descriptions: what a value rests on, what goes along with what a name may mean, what stands above an operation,
//! what runs in place, what fits where statements run, and which items and parts of instructions names tell. Each is the contract of a function
//! that does nothing.
#![tactic(auto)]

mod fitting;
mod items;
mod naming;
mod parts;
mod reading;
mod running;

pub use fitting::readings_fit;
pub use items::items_stand_at_places;
pub use naming::{above_lists, facts_go_along, nearest_is_meant};
pub use parts::parts_stand_by_names;
pub use reading::values_rest_on_names;
pub use running::{children_run_in_place, runs_end, what_runs_in_place_has_no_stage};
