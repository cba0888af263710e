//! The conditions on widths, drivers and counts of a module of the Verilog subset: lengths of indexes, ranges and expressions of more than
//! 64 bits, `reg`s that two blocks assign, and what is counted beyond its limit.
#![tactic(auto)]

mod check;
mod counts;
mod drivers;
mod indexes;
mod lengths;
mod measures;
mod powers;
mod scope;
mod tables;
mod widths;

pub use check::check_sizes;
