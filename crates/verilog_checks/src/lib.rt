//! The rules on the names of a module of the Verilog subset: each is declared once, before its uses, is used as what it is declared
//! as, and each `reg` of one word gets one first value.
#![tactic(auto)]

mod checks;
mod parts;
mod rules;
mod survey;
mod tables;
mod uses;

pub use checks::check_names;
