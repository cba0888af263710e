//! Modules of the Verilog subset from the tokens of their text, each part with the place where it begins.
#![tactic(auto)]

mod inputs;
mod laws;
mod members;
mod ranges;
mod reading;
mod settings;

pub use laws::{lexed_tokens_fit, one_module};
pub use reading::read_placed;
