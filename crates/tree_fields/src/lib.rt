//! The fields of instruction trees in their words: no two of them share a bit, none has a literal bit, and a word is made of its fields one by
//! one. The definitions are in `specs`, and the laws on them are the contracts of the functions here.
#![tactic(auto)]

pub mod laws;
