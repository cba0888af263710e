//! The commands on a module of the Verilog subset, which clock it: `clock`, `clocktrace`, `vvcd`, `vboard` and `vdebug`.
//!
//! `specs/Clocks.antt` says what each gives.
#![tactic(auto)]

mod clocking;
mod designs;
mod parts;

pub use clocking::do_with_module;
pub use designs::module_of;
