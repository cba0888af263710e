//! Tests of the text of modules, and of the modules of step programs.
#![tactic(auto)]

#[cfg(test)]
mod netlist;
#[cfg(test)]
mod printing;
