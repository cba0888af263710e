//! Tests of forms, occurrences and items, of descriptions that are read from text.
#![tactic(auto)]

#[cfg(test)]
mod forms;
