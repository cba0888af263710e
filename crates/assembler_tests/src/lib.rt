//! Tests of sources, and of objects and images.
#![tactic(auto)]

#[cfg(test)]
mod objects;
#[cfg(test)]
mod sources;
