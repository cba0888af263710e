//! What a pipeline shows of a description's state, and what items with their places tell of it.
#![tactic(auto)]

mod shown;
mod taken;

pub use shown::{
    all_is_shown, edges_are_shown, items_are_taken, put_items_are_held, states_are_shown,
};
pub use taken::Taken;
