//! The conditions on stages, on `main` and on `reset`: what runs in which stage, and what may stand where.
#![tactic(auto)]

mod activations;
mod backward;
mod closing;
mod controls;
mod first;
mod look_ups;
mod mains;
mod resets;
mod running;
mod spreading;

pub use first::{first_backward, first_bad_reset, first_control, is_bad_main};
