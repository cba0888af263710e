//! Tests of the digest of descriptions, of what machines show, and of expressions and statements that are read by themselves.
#![tactic(auto)]

#[cfg(test)]
mod digest;
#[cfg(test)]
mod machines;
#[cfg(test)]
mod readings;
