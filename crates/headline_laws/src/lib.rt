//! The headline: the module that `verilog` writes does what its description does.
#![tactic(auto)]

mod laws;

pub use laws::{
    modules_do_what_descriptions_do, modules_print_what_descriptions_print, runs_print_one_text,
    waves_are_replayed,
};
