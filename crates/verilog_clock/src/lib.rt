//! The clock of modules of the Verilog subset: an engine whose state after each edge is the one that the module means.
//!
//! A module is compiled once, when its clock is made: names become places, and each operator gets its length.
#![tactic(auto)]

mod actions;
mod clock;
mod code;
mod compile;
mod declare;
mod edges;
mod firsts;
mod lengths;
mod names;
mod operations;
mod rooms;
mod scope;
mod steps;
mod writes;

pub use clock::Clock;
