//! The conditions on names of a description: no two things of one class share one, and each stands for something where it is used.
#![tactic(auto)]

mod doubled;
mod firsts;
mod lookups;
mod repeats;
mod unknown;

pub use firsts::{first_duplicate, first_unknown};
