//! Tests of the program over files and streams in memory, some of whose calls fail.
#![tactic(auto)]

#[cfg(test)]
mod failing;
