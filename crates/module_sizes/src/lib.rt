//! What the steps cost to which a description is lowered, in bytes of their module, and what its texts are worth by their weight. Each law is
//! the contract of a function that does nothing.
#![tactic(auto)]

pub mod laws;

pub use description_weight::weigh;
pub use lisa_machine::Machine;
pub use lowered_edges::{
    lower_edges, programs_are_formed, programs_make_edges, programs_show_states, shown_is_declared,
};
