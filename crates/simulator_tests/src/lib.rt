//! Tests of the simulator, of descriptions that are read from text.
#![tactic(auto)]

#[cfg(test)]
mod edges;
