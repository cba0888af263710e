//! Tests of the words and the texts of instructions, of descriptions that are read from text, against what was written by hand, and of sources that are drawn.
#![tactic(auto)]

#[cfg(test)]
mod lines;
#[cfg(test)]
mod programs;
#[cfg(test)]
mod rows;
#[cfg(test)]
mod words;
