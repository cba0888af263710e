//! Modules of the Verilog subset with the places of their parts: each expression, and the range of each declaration, carries the byte
//! at which it begins.
#![tactic(auto)]

mod expressions;
mod modules;
mod stripping;

pub use expressions::PlacedExpr;
pub use modules::{PlacedAction, PlacedInput, PlacedMember, PlacedModule};
pub use stripping::strip;
