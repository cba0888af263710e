//! Tests of memories as other tools write them.
#![tactic(auto)]

#[cfg(test)]
mod hex_cases;
#[cfg(test)]
mod memh_cases;
#[cfg(test)]
mod said;
