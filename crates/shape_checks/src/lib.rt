//! The conditions on widths, depths and loops of a description, for which no name is looked up.
#![tactic(auto)]

mod bounds;
mod depths;
mod firsts;
mod loops;
mod widths;

pub use bounds::{Bounds, bounds_of};
pub use firsts::{first_bad_depth, first_bad_width, first_long_loop, first_unbounded_loop};
