//! What commands give, in one step from the bytes of their files: the texts of states, and the first fault of a description; and what they look
//! for, which is found or refused. Each is the contract of a function that does nothing.
#![tactic(auto)]

mod laws;
mod steps;

pub use laws::{
    clocks_refuse_first_faults, clocks_show_states, refusals_are_first_faults, runs_show_states,
};
pub use steps::steps_are_decided;
