//! Tests of look-ups in tables of patterns.
#![tactic(auto)]

#[cfg(test)]
mod probes;
